// One word of a mask's word list, two, and the word reader. Functions take the list and a place in
// it; what stands there is what a definition reads from that place on, and a word is `None` at the
// list's end. The public functions are for the crates above: none is a call of the kiosk's.
#![tactic(auto)]

ghost use Rattle.std.specs.Prelude.{◌≡◌, ◌+◌, drop};
ghost use Rattle.word_list.specs.Words.{beyond, read_count, read_coordinate};
ghost use Rattle.word_reader.specs.Reader.{ahead, word_of, alone_of, is_even_odd, counted_of, checked_of};

use fault::{Check, Fault};

// The largest size of a coordinate.
const LARGEST_COORDINATE: i32 = 1048576;

// A word as a rule: whether it asks for even-odd. The list's end does not.
fn is_even_odd(word: Option<i32>) -> bool
    ensures { result ≡ is_even_odd word }
{
    word.is_some_and(|rule| rule != 0)
}

// A word as a count.
#[tactic(auto, unfolding(word_list::specs::Words::read_count))]
fn count(word: Option<i32>) -> Result<usize, Fault>
    ensures { result ≡ counted_of (read_count (alone_of word)) }
{
    let Some(n) = word else {
        return Err(Fault::ListEndsEarly);
    };
    if n < 0 {
        return Err(Fault::CountOutOfRange);
    }
    Ok(n as usize)
}

// Whether a coordinate lies beyond its limit.
#[tactic(auto, unfolding(word_list::specs::Words::beyond))]
fn is_beyond(x: i32) -> bool
    ensures { result ≡ beyond x }
{
    x < -LARGEST_COORDINATE || LARGEST_COORDINATE < x
}

// A word as a coordinate.
#[tactic(auto, unfolding(word_list::specs::Words::read_coordinate))]
pub fn coordinate(word: Option<i32>) -> Check
    ensures { result ≡ checked_of (read_coordinate (alone_of word)) }
{
    let Some(x) = word else {
        return Err(Fault::ListEndsEarly);
    };
    if is_beyond(x) {
        return Err(Fault::CoordinateOutOfRange);
    }
    Ok(())
}

// Two words of the list, one behind the other.
#[derive(Clone, Copy)]
pub struct Pair {
    pub first: Option<i32>,
    pub second: Option<i32>,
}

// The head of a group: its rule, and its count of contours.
#[derive(Clone, Copy)]
pub struct Head {
    pub even_odd: bool,
    pub contours: Result<usize, Fault>,
}

// What stands at a place: the only index into a word list.
fn value_at(words: &[i32], at: usize) -> Option<i32>
    ensures { result ≡ word_of (drop at words.now) }
{
    if words.len() <= at {
        return None;
    }
    Some(words[at])
}

// The place behind another, or the same where the list has ended.
fn place_behind(words: &[i32], at: usize) -> usize
    ensures { drop result words.now ≡ drop (at + 1) words.now }
{
    if at < words.len() { at + 1 } else { at }
}

// The word reader: the lent list and the place of its next word. Each function over it is thin; the
// work is done by those above.
#[derive(Clone, Copy)]
struct WordReader<'a> {
    words: &'a [i32],
    at: usize,
}

impl<'a> WordReader<'a> {
    // A reader whose next word is the one at a place.
    fn new(words: &'a [i32], at: usize) -> WordReader<'a>
        ensures { ahead result ≡ drop at words.now }
    {
        WordReader { words, at }
    }

    // The next word.
    fn peek(self) -> Option<i32>
        ensures { result ≡ word_of (ahead self.entry) }
    {
        value_at(self.words, self.at)
    }

    // The reader behind its next word.
    fn moved(self) -> WordReader<'a>
        ensures { ahead result ≡ drop 1 (ahead self.entry) }
    {
        WordReader {
            words: self.words,
            at: place_behind(self.words, self.at),
        }
    }
}

// The word at a place.
pub fn word_at(words: &[i32], at: usize) -> Option<i32>
    ensures { result ≡ word_of (drop at words.now) }
{
    WordReader::new(words, at).peek()
}

// The two words from a place on, read by one reader that moves on between them.
pub fn pair_at(words: &[i32], at: usize) -> Pair
    ensures { (result.first ≡ word_of (drop at words.now)) × (result.second ≡ word_of (drop (at + 1) words.now)) }
{
    let reader = WordReader::new(words, at);
    Pair {
        first: reader.peek(),
        second: reader.moved().peek(),
    }
}

// The count word at a place.
#[tactic(auto, using(crate::proofs::Reader::first_count))]
pub fn count_at(words: &[i32], at: usize) -> Result<usize, Fault>
    ensures { result ≡ counted_of (read_count (drop at words.now)) }
{
    count(word_at(words, at))
}

// The head of the group at a place.
#[tactic(auto, using(crate::proofs::Reader::first_count))]
pub fn head_at(words: &[i32], at: usize) -> Head
    ensures { (result.even_odd ≡ is_even_odd (word_of (drop at words.now))) × (result.contours ≡ counted_of (read_count (drop (at + 1) words.now))) }
{
    let head = pair_at(words, at);
    Head {
        even_odd: is_even_odd(head.first),
        contours: count(head.second),
    }
}
