// The contracts that demand 3 speaks of, each cited once: a function here makes one call and promises the record, or
// the equation, that the theorem supposes of it. Were a contract to promise something else, this crate would not be
// proved, nor the theorem's, which stands above it.
#![tactic(auto)]

ghost use Rattle.std.specs.Prelude.{◌≡◌};
ghost use Rattle.recovery.specs.Next.{NextStep, part_at};
ghost use Rattle.counts.specs.Counts.{unwritten};
ghost use Rattle.journal.specs.Opening.{Opens};
ghost use Rattle.staging.specs.Stage.{Stages};
ghost use Rattle.append.specs.Append.{Confirms, Commits};

use counts::WriteAmplification;
use journal::Journal;
use progress::Advanced;
use recovery::next::{Recovery, Stepped};
use waymaker_core::error::Refusal;
use waymaker_core::record::Record;

fn opens(
    written: WriteAmplification,
    program_size: usize,
    read_size: usize,
    region: &[u8],
    page: &mut [u8],
) -> Result<Journal, Refusal>
    ensures { Opens written program_size read_size region.now page.old result page.new }
{
    Journal::open_with(written, program_size, read_size, region, page)
}

fn opens_at_zero(
    program_size: usize,
    read_size: usize,
    region: &[u8],
    page: &mut [u8],
) -> Result<Journal, Refusal>
    ensures { Opens unwritten program_size read_size region.now page.old result page.new }
{
    Journal::open(program_size, read_size, region, page)
}

fn stages(
    journal: Journal,
    record: Record,
    free: &[u8],
    region: &mut [u8],
    page: &mut [u8],
) -> Advanced
    ensures { Stages journal «record» free.now region.old page.old result region.new page.new }
{
    staging::step::stage(journal, record, free, region, page)
}

fn confirms(journal: Journal, region: &[u8]) -> Advanced
    ensures { Confirms journal region.now result region.now }
{
    append::step::payload_barrier(journal, region)
}

fn commits(journal: Journal, region: &mut [u8]) -> Advanced
    ensures { Commits journal region.old result region.new }
{
    append::step::commit(journal, region)
}

fn next(s: Recovery, region: &[u8], page: &mut [u8]) -> Stepped
    ensures { NextStep s region.now page.old result page.new }
{
    s.next(region, page)
}

fn payload(page: &[u8], place: usize, len: usize) -> &[u8]
    ensures { result.now ≡ part_at page.now place len }
{
    recovery::next::payload(page, place, len)
}
