// The vectors of an input.
ghost use Rattle.std.specs.Prelude.{length};
ghost use Rattle.std.specs.Iterator.{at_most};

use testing::parts::counted;

// Each with its tag and the rest of it, or none where the input cuts it short.
#[derive(Drop)]
pub(crate) struct Vectors<'a>(pub &'a [u8]);

impl<'a> Iterator for Vectors<'a> {
    type Item = (u8, Option<&'a [u8]>);

    ghost remaining = { λ s. at_most (length s.0.now) };

    fn next(&mut self) -> Option<(u8, Option<&'a [u8]>)> {
        let (tag, mut rest) = self.0.split_first()?;
        let vector = counted(&mut rest);
        self.0 = if vector.is_some() { rest } else { &[] };
        Some((*tag, vector))
    }
}
