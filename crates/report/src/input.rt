// What standard input says: a line with the two units, then the region.
ghost use Rattle.std.specs.Prelude.{◌≡◌, ◌≤◌, length};
ghost use Rattle.text.specs.Text.{Puts};
ghost use Rattle.text.specs.Pieces.{Lays};
ghost use Rattle.report.specs.Report.{units_of, listing, Lists};
ghost use Rattle.report.specs.Inside.{Says};

use crate::run::report;
use lines::put_refused;
use recovery::next::Recovery;
use storage::geometry::Geometry;
use text::{COMMA, LINE_FEED, Output, number_of, split_once};

// The longest region that is listed.
const REGION_MOST: usize = 32768;

// Room for a first line of nine bytes and the longest region, so that a longer input is refused by its beginning.
pub const INPUT_ROOM: usize = 32784;

// Room for every listing.
pub const LISTING_ROOM: usize = 102400;

#[derive(Clone, Copy)]
pub struct Units {
    pub program_size: u64,
    pub read_size: u64,
}

// The two units of a line, where it is two numbers with a comma between them.
#[tactic(auto, unfolding(crate::specs::Report::units_of))]
fn units_of(line: &[u8]) -> Option<Units>
    ensures { result ≡ units_of line.now }
{
    let (program, read) = split_once(line, COMMA)?;
    let program_size = number_of(program)?;
    let read_size = number_of(read)?;
    Some(Units {
        program_size,
        read_size,
    })
}

// The settings and the region that an input says; none where it is refused.
#[tactic(auto, unfolding(crate::specs::Report::listing, crate::specs::Report::listed_region), using(crate::proofs::Inputs::says))]
fn region_of(input: &[u8]) -> Option<(Geometry, &[u8])>
    ensures { Says input.now result }
{
    let (line, region) = split_once(input, LINE_FEED)?;
    let units = units_of(line)?;
    if REGION_MOST < region.len() {
        return None;
    }
    let geometry = Geometry::new(
        region.len(),
        units.program_size as usize,
        units.read_size as usize,
    )
    .ok()?;
    Some((geometry, region))
}

// Puts the listing of an input. The page is as long as the longest region, so that every read fits in it.
fn put_listing(out: &mut Output, input: &[u8])
    ensures { Lays out.old (listing input.now) out.new }
{
    let Some((geometry, region)) = region_of(input) else {
        return put_refused(out);
    };
    let mut page = [0u8; REGION_MOST];
    report(Recovery::new(geometry), region, &mut page, out);
}

// Lays the listing of an input over the start of the output and answers where it ends. What does not fit is left out.
// The end and no part: what stood behind it stands there still, for the caller that lent it to read.
pub fn list(input: &[u8], out: &mut [u8]) -> usize
    ensures puts { Puts out.old 0 (listing input.now) result out.new }
    ensures within { result ≤ length out.new }
{
    let mut output = Output::new(out);
    put_listing(&mut output, input);
    output.place
}

// The listing of the input whose first n bytes stand in the array.
// The count stands beside the array since a slice of n bytes would not say whether more of the input had found room.
#[tactic(auto, using(crate::proofs::Beginnings::lists_whole))]
pub fn list_input(input: &[u8; INPUT_ROOM], n: usize, out: &mut [u8; LISTING_ROOM]) -> usize
    ensures lists { Lists input.now n out.old result out.new }
    ensures within { result ≤ length out.new }
{
    list(&input[..n.min(input.len())], out)
}
