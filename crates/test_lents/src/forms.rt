// The steps of an append in two forms with one promise: by value, and over a lent journal. In the second a journal of
// one's own is lent for the step, so that whoever makes it lends none.
ghost use Rattle.staging.specs.Stage.{Stages};
ghost use Rattle.append.specs.Append.{Confirms, Commits};

use journal::Journal;
use progress::Advanced;
use waymaker_core::record::Record;

pub(crate) trait Form {
    fn stage(
        journal: Journal,
        record: Record,
        free: &[u8],
        region: &mut [u8],
        page: &mut [u8],
    ) -> Advanced
        ensures { Stages journal «record» free.now region.old page.old result region.new page.new };

    fn payload_barrier(journal: Journal, region: &[u8]) -> Advanced
        ensures { Confirms journal region.now result region.now };

    fn commit(journal: Journal, region: &mut [u8]) -> Advanced
        ensures { Commits journal region.old result region.new };
}

pub(crate) struct ByValue;

impl Form for ByValue {
    fn stage(
        journal: Journal,
        record: Record,
        free: &[u8],
        region: &mut [u8],
        page: &mut [u8],
    ) -> Advanced {
        staging::step::stage(journal, record, free, region, page)
    }

    fn payload_barrier(journal: Journal, region: &[u8]) -> Advanced {
        append::step::payload_barrier(journal, region)
    }

    fn commit(journal: Journal, region: &mut [u8]) -> Advanced {
        append::step::commit(journal, region)
    }
}

pub(crate) struct Lent;

impl Form for Lent {
    fn stage(
        mut journal: Journal,
        record: Record,
        free: &[u8],
        region: &mut [u8],
        page: &mut [u8],
    ) -> Advanced {
        let progress = lent::stage(&mut journal, record, free, region, page);
        Advanced { journal, progress }
    }

    fn payload_barrier(mut journal: Journal, region: &[u8]) -> Advanced {
        let progress = lent::payload_barrier(&mut journal, region);
        Advanced { journal, progress }
    }

    fn commit(mut journal: Journal, region: &mut [u8]) -> Advanced {
        let progress = lent::commit(&mut journal, region);
        Advanced { journal, progress }
    }
}
