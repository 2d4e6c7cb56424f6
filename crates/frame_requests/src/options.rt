//! The options before the edits.

ghost use Rattle.std.specs.Prelude.{◌≡◌, ◌<◌, ◌≤◌, ◌+◌, ◌^◌, IfErr, IfOk, IfSome, Some, length, map, slice_index, ◌==◌};
ghost use Rattle.std.specs.Option.{is_some};
ghost use Rattle.frame_requests.specs.Options.{AreMisread, AreOptions, alone_of, followed_at, followed_of, is_name, item_at, lacks_boxes, list_option, misread_word, no_options, way_at, with_item, with_word};

use frame_edits::{Paint, read_way};
use frame_texts::value_named;
use image_commands::Change;
use texts::Field;

/// How many bytes all buffers may have, where no option tells another number: 1 GiB.
const LIMIT: usize = 1 << 30;

/// Why the words before the edits are no options. A word is told by its place.
#[derive(Clone, Copy, PartialEq, Eq)]
pub enum Misread {
    /// Nothing follows this option.
    Lacks(usize),
    /// The option before this word needs a number, and this isn't one.
    NoNumber(usize),
    /// This word and the next one aren't what boxes become.
    NoWay(usize),
    /// This option needs the name of a file, and no standard stream.
    NoName(usize),
    /// This word begins as an option does, and isn't one.
    Unknown(usize),
}

/// What the words before the edits ask for. A name is told by its place among the words.
#[derive(Clone, Copy)]
pub struct Options {
    /// Whether what else is only noted is a fault. That is a range that the input doesn't reach, and a
    /// cover that covers nothing. It is also a cover after an edit that may show what it hides.
    pub strict: bool,
    /// How many bytes all buffers may have.
    pub limit: usize,
    /// The name of a file of edits. Without one the edits are words.
    pub edits: Option<usize>,
    /// The name of a tracker's list, whose boxes are covered before the edits.
    pub boxes: Option<usize>,
    /// For how many frames a box of that list is held.
    pub hold: Option<usize>,
    /// How many pixels more each box of that list has on each side.
    pub margin: Option<usize>,
    /// What becomes of each box of that list. Without a change it is covered.
    pub with: Option<Change<Paint>>,
    /// Whether a frame without a box is a fault.
    pub require_box: bool,
    /// The name of the file that gets the rectangles as they were drawn.
    pub report: Option<usize>,
    /// How many frames or pictures the input has to have.
    pub frames: Option<usize>,
    /// The name of the input. Without one it is standard input.
    pub input: Option<usize>,
    /// The name of the output. Without one it is standard output.
    pub output: Option<usize>,
    /// Where the edits begin.
    pub first: usize,
}

/// An option with what it asks for. A name is that of its place, and a stream may have none.
#[derive(Clone, Copy)]
pub(crate) enum Item {
    Strict,
    RequireBox,
    With(Change<Paint>),
    Limit(usize),
    Edits,
    Boxes,
    Hold(usize),
    Margin(usize),
    Report,
    Frames(usize),
    Input(bool),
    Output(bool),
}

/// An option that another word follows.
#[derive(Clone, Copy)]
pub(crate) enum Followed {
    Limit,
    Edits,
    Boxes,
    Hold,
    Margin,
    Report,
    Frames,
    Input,
    Output,
}

// An option that no other word follows.
fn read_alone(word: &[u8]) -> Option<Item>
    ensures { result ≡ alone_of word.now }
{
    let options: [(&[u8], Item); 2] = [
        (b"--strict", Item::Strict),
        (b"--require-box", Item::RequireBox),
    ];
    value_named(word, &options)
}

fn read_followed(word: &[u8]) -> Option<Followed>
    ensures { result ≡ followed_of word.now }
{
    let options: [(&[u8], Followed); 9] = [
        (b"--limit", Followed::Limit),
        (b"--edits", Followed::Edits),
        (b"--boxes", Followed::Boxes),
        (b"--hold", Followed::Hold),
        (b"--margin", Followed::Margin),
        (b"--report", Followed::Report),
        (b"--frames", Followed::Frames),
        (b"-i", Followed::Input),
        (b"-o", Followed::Output),
    ];
    value_named(word, &options)
}

// Whether a word names a file, and no standard stream.
fn is_name(word: &[u8]) -> bool
    ensures { result ≡ is_name word.now }
{
    word != b"-".as_slice()
}

// An option with the word after it, where that is a number or a name as the option needs it.
fn with_word(option: Followed, word: &[u8]) -> Option<Item>
    ensures { result ≡ with_word option word.now }
{
    match option {
        Followed::Limit => Some(Item::Limit(usize::read(word)?)),
        Followed::Edits => Some(Item::Edits),
        Followed::Boxes => Some(Item::Boxes),
        Followed::Hold => Some(Item::Hold(usize::read(word)?)),
        Followed::Margin => Some(Item::Margin(usize::read(word)?)),
        Followed::Report => is_name(word).then_some(Item::Report),
        Followed::Frames => Some(Item::Frames(usize::read(word)?)),
        Followed::Input => Some(Item::Input(is_name(word))),
        Followed::Output => Some(Item::Output(is_name(word))),
    }
}

// Why the word isn't one that the option at this place needs.
fn misread_word(option: Followed, at: usize) -> Misread
    requires { at < 2 ^ 63 }
    ensures { result ≡ misread_word option at }
{
    match option {
        Followed::Report => Misread::NoName(at),
        _ => Misread::NoNumber(at + 1),
    }
}

// An option at this place by the words after its own, and how many words it has.
fn read_value(
    option: Followed,
    words: &[&[u8]],
    at: usize,
) -> Result<Option<(Item, usize)>, Misread>
    requires { at < 2 ^ 63 }
    ensures front { result ≡ followed_at option (map (λ w. w.now) words.now) at }
    ensures some { IfOk result (λ f. IfSome f (λ i. 0 < i.1)) }
    ensures there { IfOk result (λ f. IfSome f (λ i. i.1 ≤ length words.now + 1)) }
{
    let [word, ..] = words else {
        return Err(Misread::Lacks(at));
    };
    match with_word(option, word) {
        Some(item) => Ok(Some((item, 2))),
        None => Err(misread_word(option, at)),
    }
}

// The same of what becomes of boxes, by two words.
fn read_with(words: &[&[u8]], at: usize) -> Result<Option<(Item, usize)>, Misread>
    requires { at < 2 ^ 63 }
    ensures front { result ≡ way_at (map (λ w. w.now) words.now) at }
    ensures some { IfOk result (λ f. IfSome f (λ i. 0 < i.1)) }
    ensures there { IfOk result (λ f. IfSome f (λ i. i.1 ≤ length words.now + 1)) }
{
    let [word, last, ..] = words else {
        return Err(Misread::Lacks(at));
    };
    match read_way(word, last) {
        Some(way) => Ok(Some((Item::With(way), 3))),
        None => Err(Misread::NoWay(at + 1)),
    }
}

// The option at the front of words, which are from this place on, and how many words it has. `None`
// where there is none.
fn read_item(words: &[&[u8]], at: usize) -> Result<Option<(Item, usize)>, Misread>
    requires { at < 2 ^ 63 }
    ensures front { result ≡ item_at (map (λ w. w.now) words.now) at }
    ensures some { IfOk result (λ f. IfSome f (λ i. 0 < i.1)) }
    ensures there { IfOk result (λ f. IfSome f (λ i. i.1 ≤ length words.now)) }
{
    let [word, others @ ..] = words else {
        return Ok(None);
    };
    if let Some(item) = read_alone(word) {
        return Ok(Some((item, 1)));
    }
    if *word == b"--with".as_slice() {
        return read_with(others, at);
    }
    match read_followed(word) {
        Some(option) => read_value(option, others, at),
        None if is_dashed(word) => Err(Misread::Unknown(at)),
        None => Ok(None),
    }
}

// Whether a word begins as an option does.
fn is_dashed(word: &[u8]) -> bool
    ensures { result ≡ (slice_index word.now 0 == 45) }
{
    matches!(word, [b'-', ..])
}

impl Options {
    // No option, with the words after the program's name.
    fn none() -> Options
        ensures { result ≡ no_options }
    {
        Options {
            strict: false,
            limit: LIMIT,
            edits: None,
            boxes: None,
            hold: None,
            margin: None,
            with: None,
            require_box: false,
            report: None,
            frames: None,
            input: None,
            output: None,
            first: 1,
        }
    }

    // The options with one more, which has so many words.
    fn with_item(self, item: Item, count: usize) -> Options
        requires first { self.first < 2 ^ 63 }
        requires count { self.first + count < 2 ^ 63 }
        ensures { result ≡ with_item self (item, count) }
    {
        let name = Some(self.first + 1);
        let mut options = self;
        options.first = self.first + count;
        match item {
            Item::Strict => options.strict = true,
            Item::RequireBox => options.require_box = true,
            Item::With(way) => options.with = Some(way),
            Item::Limit(limit) => options.limit = limit,
            Item::Edits => options.edits = name,
            Item::Boxes => options.boxes = name,
            Item::Hold(hold) => options.hold = Some(hold),
            Item::Margin(margin) => options.margin = Some(margin),
            Item::Report => options.report = name,
            Item::Frames(frames) => options.frames = Some(frames),
            Item::Input(is_named) => options.input = if is_named { name } else { None },
            Item::Output(is_named) => options.output = if is_named { name } else { None },
        }
        options
    }

    /// The first option that is for the boxes of a list, where there is no list.
    pub fn lacks_boxes(&self) -> Option<&'static str>
        ensures lacks { is_some result ≡ lacks_boxes self.now }
        ensures first { IfSome result (λ option. list_option self.now ≡ Some option.now) }
    {
        if self.boxes.is_some() {
            None
        } else if self.hold.is_some() {
            Some("--hold")
        } else if self.margin.is_some() {
            Some("--margin")
        } else if self.with.is_some() {
            Some("--with")
        } else if self.require_box {
            Some("--require-box")
        } else {
            None
        }
    }
}

/// The options at the front of the words after the program's name, or why a word isn't one. Of one
/// that is repeated the last one counts.
pub fn read_options(words: &[&[u8]]) -> Result<Options, Misread>
    ensures options { IfOk result (AreOptions (map (λ w. w.now) words.now)) }
    ensures misread { IfErr result (AreMisread (map (λ w. w.now) words.now)) }
{
    let mut options = Options::none();
    while options.first < words.len() {
        match read_item(&words[options.first..], options.first) {
            Ok(Some((item, count))) => options = options.with_item(item, count),
            Ok(None) => return Ok(options),
            Err(misread) => return Err(misread),
        }
    }
    Ok(options)
}
