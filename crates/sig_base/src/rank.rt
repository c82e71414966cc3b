//! The rank of a text: a number that tells most texts apart without a look at them.
ghost use Rattle.std.specs.Prelude.{◌≡◌, ◌≤◌, map, slice_get};
ghost use Rattle.sig_base.specs.Rank.{rank_digit, rank, rank_from, is_same, alike, shared};

/// One more than the bytes that there are, since an absent one counts too.
const RADIX: u64 = 257;

/// Returns with how many bytes all these texts begin alike, 0 of no texts. Ranks of the bytes after these tell the texts
/// apart.
pub fn shared(texts: &[&[u8]]) -> usize
    ensures { result ≡ shared (map (λ text. text.now) texts.now) }
{
    let Some(first) = texts.first() else {
        return 0;
    };
    let mut most = first.len();
    'texts: for text in &texts[1..] {
        most = alike(first, text, most);
    }
    most
}

/// Returns with how many bytes, at most so many, two texts begin alike.
fn alike(one: &[u8], other: &[u8], most: usize) -> usize
    ensures { result ≡ alike most one.now other.now }
{
    'bytes: for index in 0..most {
        if !is_same_at(one, other, index) {
            return index;
        }
    }
    most
}

/// Whether both texts have the same byte at the index.
#[inline(always)]
fn is_same_at(one: &[u8], other: &[u8], index: usize) -> bool
    ensures { result ≡ is_same (slice_get one.now index) (slice_get other.now index) }
{
    match one.get(index) {
        Some(byte) => match other.get(index) {
            Some(against) => *byte == *against,
            None => false,
        },
        None => false,
    }
}

/// Returns the rank of a text from this byte on: the seven bytes from there as a number. Of two texts that begin alike up
/// to there and differ in these seven, the lower one has the lower rank.
#[inline(always)]
pub fn rank_from(text: &[u8], from: usize) -> u64
    ensures { result ≡ rank_from from text.now }
{
    if from >= text.len() {
        return rank(&[]);
    }
    rank(&text[from..])
}

/// The first seven bytes as a number.
#[tactic(auto, unfolding(crate::specs::Rank::rank))]
#[inline(always)]
fn rank(text: &[u8]) -> u64
    ensures { result ≡ rank text.now }
{
    let three = (rank_digit(text, 0) * RADIX + rank_digit(text, 1)) * RADIX + rank_digit(text, 2);
    let five = (three * RADIX + rank_digit(text, 3)) * RADIX + rank_digit(text, 4);
    (five * RADIX + rank_digit(text, 5)) * RADIX + rank_digit(text, 6)
}

/// A byte as a digit of a rank: an absent byte is below all others.
#[inline(always)]
fn rank_digit(text: &[u8], index: usize) -> u64
    ensures digit { result ≡ rank_digit text.now index }
    ensures bound { result ≤ 256 }
{
    match text.get(index) {
        Some(byte) => *byte as u64 + 1,
        None => 0,
    }
}
