// Parts of bytes: the first of them, and those that a number is made of.
ghost use Rattle.std.specs.Prelude.{◌≡◌, ◌<◌, ◌+◌, ◌-◌, ◌++◌, MatchOption, length, take, drop, replicate};
ghost use Rattle.std.specs.Int.{from_le_bytes, w16};

// The first n bytes, or all if there are fewer.
pub fn first(v: &[u8], n: usize) -> &[u8]
    ensures { result.now ≡ take n v.now }
{
    &v[..n.min(v.len())]
}

// The next N bytes, taken off the front. Where there are fewer nothing is taken.
pub fn array<const N: usize>(left: &mut &[u8]) -> Option<[u8; N]>
    ensures { MatchOption result ((length left.old.now < N) × (left.new.now ≡ left.old.now))
        (λ front. (front ≡ take N left.old.now) × (left.new.now ≡ drop N left.old.now)) }
{
    let (front, rest) = left.split_first_chunk()?;
    *left = rest;
    Some(*front)
}

// The next bytes with their number before them, which has two bytes; none where fewer are left than it says.
pub fn counted<'a>(left: &mut &'a [u8]) -> Option<&'a [u8]>
    ensures { MatchOption result ((length left.old.now < 2 + from_le_bytes w16 (take 2 left.old.now))
        × (left.new.now ≡ left.old.now))
        (λ front. (left.old.now ≡ take 2 left.old.now ++ front.now ++ left.new.now)
        × (length front.now ≡ from_le_bytes w16 (take 2 left.old.now))) }
{
    let mut behind = *left;
    let n = u16::from_le_bytes(array(&mut behind)?);
    let front = behind.split_off(..usize::from(n))?;
    *left = behind;
    Some(front)
}

// The first N bytes and what is behind them. Past the end there are zeros and an empty part.
#[tactic(auto, using(crate::proofs::Zeros::zeros_behind))]
pub fn padded<const N: usize>(v: &[u8]) -> ([u8; N], &[u8])
    ensures front { result.0 ≡ take N v.now ++ replicate (N - length v.now) 0 }
    ensures rest { result.1.now ≡ drop N v.now }
{
    let n = N.min(v.len());
    let (given, rest) = v.split_at(n);
    let mut front = [0; N];
    front[..n].copy_from_slice(given);
    (front, rest)
}
