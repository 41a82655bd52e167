//! Walks over the rows of a set by its words: what is left of a word is kept, and each step takes its lowest bit, or its highest.
#![tactic(auto)]

ghost use Rattle.std.specs.Prelude.{◌≡◌, ◌<◌, ◌≤◌, ◌+◌, ◌*◌, ℕ, length, slice_index, MatchOption};
ghost use Rattle.std.specs.Int.{bit_at};
ghost use Rattle.nrm_tableau.specs.Inner.Walks.{HasNone, IsDownwards, IsFirst, IsLast, IsUpwards};

/// A walk upwards. It has come to the row `from`.
#[derive(Drop)]
pub(crate) struct Upwards<'a> {
    words: &'a [u64],
    place: usize,
    rest: u64,
    from: u16,
    ghost kept: { IsUpwards words.now place rest from },
}

impl<'a> Upwards<'a> {
    /// The walk from a row on.
    pub(crate) fn new(words: &'a [u64], from: u16) -> Upwards<'a>
        requires { length words.now ≤ 10 }
        ensures words { result.words.now ≡ words.now }
        ensures from { result.from ≡ from }
    {
        let place = usize::from(from / 64);
        Upwards {
            words,
            place,
            rest: word_at(words, place) & (u64::MAX << (from % 64)),
            from,
        }
    }

    /// The next row of the set.
    pub(crate) fn next(&mut self) -> Option<u16>
        ensures words { self.new.words.now ≡ self.old.words.now }
        ensures next { let all = self.old.words.now in
            MatchOption result (HasNone all self.old.from (64 * length all))
            (λ row. IsFirst all self.old.from (64 * length all) row × (self.new.from ≡ row + 1)) }
    {
        while self.rest == 0 {
            let place = self.place + 1;
            if place >= self.words.len() {
                return None;
            }
            *self = Upwards {
                words: self.words,
                place,
                rest: self.words[place],
                from: place as u16 * 64,
            };
        }
        let bit = lowest(self.rest);
        let row = self.place as u16 * 64 + bit;
        self.rest &= !(1 << bit);
        self.from = row + 1;
        Some(row)
    }

    /// The next row of the set, if it stands before `end`.
    pub(crate) fn next_before(&mut self, end: u16) -> Option<u16>
        requires { end ≤ 64 * length self.old.words.now }
        ensures words { self.new.words.now ≡ self.old.words.now }
        ensures next { let all = self.old.words.now in
            MatchOption result (HasNone all self.old.from end) (λ row. IsFirst all self.old.from end row × (self.new.from ≡ row + 1)) }
    {
        match self.next() {
            Some(row) if row < end => Some(row),
            _ => None,
        }
    }
}

/// A walk downwards. It has come to the row `end`, which isn't looked at.
#[derive(Drop)]
pub(crate) struct Downwards<'a> {
    words: &'a [u64],
    place: usize,
    rest: u64,
    end: u16,
    ghost kept: { IsDownwards words.now place rest end },
}

impl<'a> Downwards<'a> {
    /// The walk over the rows before an end.
    pub(crate) fn new(words: &'a [u64], end: u16) -> Downwards<'a>
        requires few { length words.now ≤ 10 }
        requires within { end ≤ 64 * length words.now }
        ensures words { result.words.now ≡ words.now }
        ensures end { result.end ≡ end }
    {
        let place = usize::from(end / 64);
        Downwards {
            words,
            place,
            rest: word_at(words, place) & ((1 << (end % 64)) - 1),
            end,
        }
    }

    /// The next row of the set.
    pub(crate) fn next(&mut self) -> Option<u16>
        ensures words { self.new.words.now ≡ self.old.words.now }
        ensures next { let all = self.old.words.now in
            MatchOption result (HasNone all 0 self.old.end) (λ row. IsLast all self.old.end row × (self.new.end ≡ row)) }
    {
        while self.rest == 0 {
            if self.place == 0 {
                return None;
            }
            let place = self.place - 1;
            *self = Downwards {
                words: self.words,
                place,
                rest: self.words[place],
                end: self.place as u16 * 64,
            };
        }
        let bit = highest(self.rest);
        let row = self.place as u16 * 64 + bit;
        self.rest &= !(1 << bit);
        self.end = row;
        Some(row)
    }
}

// The word at a place, and 0 past the last.
fn word_at(words: &[u64], place: usize) -> u64
    ensures { result ≡ slice_index words.now place }
{
    if place < words.len() { words[place] } else { 0 }
}

// The place of the lowest bit of a word that isn't 0.
fn lowest(word: u64) -> u16
    requires { 0 < word }
    ensures within { result < 64 }
    ensures there { bit_at word result ≡ 1 }
    ensures none_below { (k : ℕ) → k < result → bit_at word k ≡ 0 }
{
    word.trailing_zeros() as u16
}

// The place of the highest bit of a word that isn't 0.
fn highest(word: u64) -> u16
    requires { 0 < word }
    ensures within { result < 64 }
    ensures there { bit_at word result ≡ 1 }
    ensures none_above { (k : ℕ) → result < k → bit_at word k ≡ 0 }
{
    63 - word.leading_zeros() as u16
}
