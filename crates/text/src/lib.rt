// Numbers as text: written in decimal into lent bytes, and read back from a line's fields.
#![tactic(auto)]

ghost use Rattle.std.specs.Prelude.{◌≡◌, [], ◌∷◌, ◌++◌};
ghost use Rattle.text.specs.Text.{decimal, number_of};
ghost use Rattle.text.specs.Pieces.{Lays, Parts};
ghost use Rattle.text.specs.Inside.{with_digit, read_from};

// Lent bytes, and the place where the next piece of text goes. What does not fit is left out, so that no piece of a
// line asks for room on its own. Pieces are put one by one: what `write!` writes is promised only where it answers
// `Ok`, and nothing promises that it does.
#[derive(Drop)]
pub struct Output<'a> {
    pub bytes: &'a mut [u8],
    // Past the end nothing is put.
    pub place: usize,
}

impl<'a> Output<'a> {
    pub fn new(bytes: &'a mut [u8]) -> Output<'a>
        ensures same { result.bytes.ghost_name ≡ bytes.entry.ghost_name }
        ensures bytes { result.bytes.now ≡ bytes.old }
        ensures place { result.place ≡ 0 }
    {
        Output { bytes, place: 0 }
    }

    // Puts bytes at the place, which is then where they end.
    pub fn put(&mut self, s: &[u8])
        ensures { Lays self.old s.now self.new }
    {
        let len = self.bytes.len();
        if len < self.place {
            return;
        }
        let n = s.len().min(len - self.place);
        self.bytes[self.place..self.place + n].copy_from_slice(&s[..n]);
        self.place += n;
    }

    // Puts the digits of a number.
    pub fn put_decimal(&mut self, n: u64)
        ensures { Lays self.old (decimal n) self.new }
    {
        self.put(itoa::Buffer::new().format(n).as_bytes());
    }

    // Puts a number and the byte that ends it: a comma, or a line feed.
    pub fn put_field(&mut self, n: u64, end: u8)
        ensures { Lays self.old (decimal n ++ (end ∷ [])) self.new }
    {
        self.put_decimal(n);
        self.put(&[end]);
    }
}

// What parts the numbers of a line, and what ends it.
pub const COMMA: u8 = b',';

pub const LINE_FEED: u8 = b'\n';

// The bytes before the first one that equals b, and those behind it.
pub fn split_once(s: &[u8], b: u8) -> Option<(&[u8], &[u8])>
    ensures { Parts b s.now result }
{
    let place = s.iter().position(|&x| x == b)?;
    Some((&s[..place], &s[place + 1..]))
}

// A number with one more digit behind its own, where the byte is a digit and 64 bits hold it.
#[tactic(auto, unfolding(crate::specs::Inside::with_digit))]
fn with_digit(v: u64, b: u8) -> Option<u64>
    ensures { result ≡ with_digit v b }
{
    if !b.is_ascii_digit() {
        return None;
    }
    v.checked_mul(10)?.checked_add(u64::from(b - b'0'))
}

// The number that digits make, with zeros in front allowed; no digits make 0.
fn value_of(s: &[u8]) -> Option<u64>
    ensures { result ≡ read_from 0 s.now }
{
    s.iter().try_fold(0, |v, &b| with_digit(v, b))
}

// The number that a text is, in decimal as put_decimal writes it, where 64 bits hold it. `str::parse` takes more: a
// sign, and zeros in front.
#[tactic(auto, using(crate::proofs::Numbers::number_more, crate::proofs::Numbers::number_one), unfolding(crate::specs::Text::is_decimal, crate::specs::Text::number_of))]
pub fn number_of(s: &[u8]) -> Option<u64>
    ensures { result ≡ number_of s.now }
{
    match s {
        [] => None,
        [b'0', _, ..] => None,
        _ => value_of(s),
    }
}
