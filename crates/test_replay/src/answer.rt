// What a case has for our answer, of which each piece is taken off the front as ours is made; none where the case has
// another there.
use counts::WriteAmplification;
use numbers::decoded::ReadRecord;
use numbers::refused::{NONE, Refused};
use testing::records::record;
use waymaker_core::error::Refusal;
use waymaker_core::record::{Part, Record, RecordRef};

#[derive(Clone, Copy)]
pub(crate) struct Answer<'a>(pub &'a [u8]);

impl Answer<'_> {
    pub(crate) fn bytes(&mut self, bytes: &[u8]) -> Option<()> {
        self.0 = self.0.strip_prefix(bytes)?;
        Some(())
    }

    pub(crate) fn number(&mut self, n: u32) -> Option<()> {
        self.bytes(&n.to_le_bytes())
    }

    // A length or a place, which has 4 bytes in the case.
    pub(crate) fn count(&mut self, n: usize) -> Option<()> {
        self.number(u32::try_from(n).ok()?)
    }

    // REFUSED.
    pub(crate) fn refused(&mut self, refusal: Option<Refusal>) -> Option<()> {
        let refused = refusal.map_or(NONE, Refused::from);
        self.bytes(&[refused.number])?;
        self.number(refused.needed)?;
        self.number(refused.available)
    }

    // FOUND.
    pub(crate) fn read(&mut self, found: Record, free: Part) -> Option<()> {
        if record(&mut self.0)? != found {
            return None;
        }
        self.count(free.place)?;
        self.count(free.len)
    }

    pub(crate) fn found(&mut self, found: RecordRef) -> Option<()> {
        let read = ReadRecord::from(found);
        self.read(read.record, read.free)
    }

    // Four counts of 32 bits: the Rust has no fifth.
    pub(crate) fn counts(&mut self, counts: WriteAmplification) -> Option<()> {
        let WriteAmplification {
            payload_bytes,
            programmed_bytes,
            program_operations,
            barriers,
            ..
        } = counts;
        for count in [
            payload_bytes,
            programmed_bytes,
            program_operations,
            barriers,
        ] {
            self.number(u32::try_from(count).ok()?)?;
        }
        Some(())
    }

    // The case has no more.
    pub(crate) fn end(self) -> Option<()> {
        self.0.is_empty().then_some(())
    }
}
