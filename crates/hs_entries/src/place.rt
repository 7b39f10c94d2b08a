// Where in the input a byte stands.
ghost use Rattle.std.specs.Prelude.{◌≡◌, ◌≢◌, ℕ, ◌+◌, ◌<◌, ◌≤◌, IsTrue, Some, true, length, take, slice_index};
ghost use Rattle.hs_entries.specs.Place as spec;

/// Where in the input a byte stands, by the bytes before it.
#[derive(Clone, Copy, Debug, PartialEq, Eq)]
pub enum Place {
    /// Between two entries.
    Between,
    /// Between two entries, behind a `-`, which begins a comment or an entry.
    DashBetween,
    /// Between two entries, behind a `/`, which begins a comment or an entry.
    SlashBetween,
    /// In a `--` comment between two entries.
    LineBetween,
    /// In a `/*` comment between two entries.
    BlockBetween,
    /// In such a comment, behind a `*`.
    StarBetween,
    /// In an entry, outside its texts, quoted names and comments.
    Plain,
    /// There, behind a `-`.
    Dash,
    /// There, behind a `/`.
    Slash,
    /// In a text.
    Text,
    /// In a quoted name.
    Quoted,
    /// In a `--` comment of an entry.
    Line,
    /// In a `/*` comment of an entry.
    Block,
    /// In such a comment, behind a `*`.
    Star,
}

impl Place {
    /// The place behind one more byte, where no entry ends with it.
    #[tactic(auto, unfolding(crate::specs::Place::next_place, crate::specs::Place::behind))]
    pub fn next(self, byte: u8) -> Place
        ensures { result ≡ spec.next_place self byte }
    {
        match self {
            Place::Between => next_between(byte),
            Place::DashBetween if byte == b'-' => Place::LineBetween,
            Place::SlashBetween if byte == b'*' => Place::BlockBetween,
            Place::LineBetween if byte == b'\n' => Place::Between,
            Place::StarBetween if byte == b'/' => Place::Between,
            Place::Dash if byte == b'-' => Place::Line,
            Place::Slash if byte == b'*' => Place::Block,
            Place::Text if byte == b'\'' => Place::Plain,
            Place::Quoted if byte == b'"' => Place::Plain,
            Place::Line if byte == b'\n' => Place::Plain,
            Place::Star if byte == b'/' => Place::Plain,
            Place::BlockBetween | Place::StarBetween if byte == b'*' => Place::StarBetween,
            Place::Block | Place::Star if byte == b'*' => Place::Star,
            Place::StarBetween => Place::BlockBetween,
            Place::Star => Place::Block,
            Place::LineBetween
            | Place::BlockBetween
            | Place::Text
            | Place::Quoted
            | Place::Line
            | Place::Block => self,
            Place::DashBetween | Place::SlashBetween | Place::Plain | Place::Dash | Place::Slash =>
                behind(byte),
        }
    }

    // Whether it is outside every text, quoted name and comment.
    #[tactic(auto, unfolding(crate::specs::Place::is_open))]
    fn is_open(self) -> bool
        ensures { result ≡ spec.is_open self }
    {
        matches!(
            self,
            Place::Between
                | Place::DashBetween
                | Place::SlashBetween
                | Place::Plain
                | Place::Dash
                | Place::Slash
        )
    }

    /// Whether an entry ends with this byte: a `;` outside every text, quoted name and comment.
    pub fn ends(self, byte: u8) -> bool
        ensures { result ≡ spec.ends self byte }
    {
        byte == b';' && self.is_open()
    }

    /// Whether what was begun there is an entry, even if the input goes no further.
    #[tactic(auto, unfolding(crate::specs::Place::is_entry))]
    pub fn is_entry(self) -> bool
        ensures { result ≡ spec.is_entry self }
    {
        !matches!(self, Place::Between | Place::LineBetween)
    }

    // Whether an entry ends with this byte, or what was begun is skipped behind it.
    #[tactic(auto, unfolding(crate::specs::Place::is_between))]
    fn stops(self, byte: u8) -> bool
        ensures { result ≡ spec.stops self byte }
    {
        self.ends(byte) || self.next(byte) == Place::Between
    }

    // How many bytes at the front can't lead to another place.
    fn run(self, bytes: &[u8]) -> usize
        ensures within { result ≤ length bytes.now }
        ensures leads { spec.leads self (take result bytes.now) ≡ Some self }
    {
        match self {
            Place::Plain => plain_run(bytes),
            Place::Text => run_to(self, b'\'', bytes),
            Place::Quoted => run_to(self, b'"', bytes),
            Place::Line => run_to(self, b'\n', bytes),
            Place::LineBetween => run_to(self, b'\n', bytes),
            Place::Block => run_to(self, b'*', bytes),
            Place::BlockBetween => run_to(self, b'*', bytes),
            _ => 0,
        }
    }
}

// The place behind a byte that follows an entry.
#[tactic(auto, unfolding(crate::specs::Place::next_place, crate::specs::Place::behind))]
fn next_between(byte: u8) -> Place
    ensures { result ≡ spec.next_place Place.Between byte }
{
    match byte {
        _ if is_white(byte) => Place::Between,
        b'-' => Place::DashBetween,
        b'/' => Place::SlashBetween,
        _ => behind(byte),
    }
}

// White space: tab, line feed, form feed, carriage return, space.
#[inline]
fn is_white(byte: u8) -> bool
    ensures { result ≡ spec.is_white byte }
{
    matches!(byte, b'\t' | b'\n' | 12 | b'\r' | b' ')
}

/// How many bytes at the front are white space, which is skipped between two entries.
#[tactic(auto, using(crate::proofs::Leading::passes_white))]
pub fn white_run(bytes: &[u8]) -> usize
    ensures within { result ≤ length bytes.now }
    ensures passes { spec.passes Place.Between (take result bytes.now) ≡ Some Place.Between }
{
    let mut count = 0;
    while count < bytes.len() && is_white(bytes[count]) {
        count += 1;
    }
    count
}

// The place in an entry, outside its texts, quoted names and comments, behind a byte.
#[tactic(auto, unfolding(crate::specs::Place::behind))]
fn behind(byte: u8) -> Place
    ensures { result ≡ spec.behind byte }
{
    match byte {
        b'\'' => Place::Text,
        b'"' => Place::Quoted,
        b'-' => Place::Dash,
        b'/' => Place::Slash,
        _ => Place::Plain,
    }
}

// How many bytes at the front are of no interest in an entry, outside its texts, names and comments.
fn plain_run(bytes: &[u8]) -> usize
    ensures within { result ≤ length bytes.now }
    ensures leads { spec.leads Place.Plain (take result bytes.now) ≡ Some Place.Plain }
{
    let mut count = 0;
    while count < bytes.len() && is_plain(bytes[count]) {
        count += 1;
    }
    count
}

// Whether a byte leads nowhere else in an entry, outside its texts, quoted names and comments.
#[tactic(auto, unfolding(crate::specs::Place::next_place, crate::specs::Place::behind, crate::specs::Place::is_open, crate::specs::Place::is_between))]
fn is_plain(byte: u8) -> bool
    ensures { IsTrue result → spec.KeepsPlace Place.Plain byte }
{
    !matches!(byte, b';' | b'\'' | b'"' | b'-' | b'/')
}

// How many bytes stand before the first `end`, the only byte that can lead from the place to another.
fn run_to(place: Place, end: u8, bytes: &[u8]) -> usize
    requires { (b : ℕ) → b ≢ end → spec.KeepsPlace place b }
    ensures within { result ≤ length bytes.now }
    ensures leads { spec.leads place (take result bytes.now) ≡ Some place }
{
    let mut count = 0;
    while count < bytes.len() && bytes[count] != end {
        count += 1;
    }
    count
}

/// How far bytes were gone over.
#[derive(Clone, Copy, Debug)]
pub struct Scanned {
    /// How many bytes of the front lead on, without an entry's end and without what is to be skipped.
    pub count: usize,
    /// The place behind them.
    pub place: Place,
}

/// Goes over the bytes from a place, up to the first with which an entry ends or behind which what was
/// begun is skipped.
#[tactic(auto, using(crate::proofs::Leading::leads_more))]
pub fn scan(from: Place, bytes: &[u8]) -> Scanned
    ensures within { result.count ≤ length bytes.now }
    ensures leads { spec.leads from (take result.count bytes.now) ≡ Some result.place }
    ensures stops { result.count < length bytes.now → spec.stops result.place (slice_index bytes.now result.count) ≡ true }
{
    let mut count = 0;
    let mut place = from;
    loop {
        count += place.run(&bytes[count..]);
        if count == bytes.len() || place.stops(bytes[count]) {
            return Scanned { count, place };
        }
        place = place.next(bytes[count]);
        count += 1;
    }
}
