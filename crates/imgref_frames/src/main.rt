//! Edits frames of raw video or pictures, one by one, from standard input to standard output.
#![tactic(auto)]

mod alike;
mod failing;

pub use devices::Counted;
use devices::{
    FileId, NewFile, Retried, Sink, Source, fill_descriptors, id_of, read_whole, standard_id,
};
use frame_edits::{BoxStyle, Edits};
pub use frame_edits::{Edit, Framing, Paint};
pub use frame_messages::is_wanted;
use frame_messages::{
    Ending, Noted, Texts, ending_of, order_status, say_boxes, say_no_head, say_no_words,
    say_odd_boxes, say_outside, say_reason, say_shared, tell_found, write_report,
};
use frame_requests::{
    Files, Options, Refusal, edits_asked, has_blur, read_options, reads_input_twice, shared_file,
    words_of,
};
pub use frame_requests::{RunFault, Seen, Shape, Stretch};
use frame_runs::{run, unsuited_in_frame};
pub use frame_texts::{Format, Picture, Range, Rate};
pub use image_planes::{Axes, Change, Scratch, Window};
use std::fs::File;
use std::io;
use std::io::{BufReader, BufWriter, ErrorKind, Write};
use std::process::ExitCode;

// What the words are, as docs/FRAMES.md has it.
const USAGE: &str = "usage: imgref_frames [OPTION..] EDIT.. < video > video
       imgref_frames [OPTION..] --edits FILE < video > video
       imgref_frames [OPTION..] --boxes FILE [EDIT..] < video > video
       imgref_frames -i FILE -o FILE [OPTION..] EDIT..
The input is a video (YUV4MPEG2), or pictures (PGM, PPM, PAM), one after the other.
EDIT is one of these. The edits are applied to each frame or picture, in their order:
       [A..B] cover L,T,W,H [V]       brightness V or black, no colour, with a margin
       [A..B] cover L,T,W,H+M [V]     the same with a margin of M pixels
       [A..B] fill L,T,W,H V          exactly this rectangle: brightness V, no colour
       [A..B] fill L,T,W,H R,G,B      a colour, only for pictures in colour
       [A..B] mosaic L,T,W,H TW,TH    tiles of TW by TH pixels
       [A..B] means L,T,W,H TW,TH     the same, each of the mean of its pixels
       [A..B] blur L,T,W,H R          each pixel is the mean of those up to R around it;
                                      it hides nothing
       [A..B] move L,T,W,H X,Y        to column X, row Y
       [A..B] flip rows|columns       the whole frame upside down, or mirrored
       [A..B] turn half               the whole frame by a half turn
       crop L,T,W,H                   only as the last edit
       pad L,T,R,B V                  likewise: a border of brightness V, no colour
       turn right|left                likewise: the whole frame by a quarter turn
A..B: only the frames A to B-1, counted from 0; A..: from A on.
      Times of a video, as 00:01:02.5..00:01:04: the frames from one up to the other.
OPTION:
       -i FILE           reads the input from a file; - is standard input
       -o FILE           writes the output to a file, which gets its name once it is whole;
                         - is standard output
       --edits FILE      reads the edits from a file: one on each line, # begins a comment
       --edits -         reads them from standard input; only with -i
       --boxes FILE      covers the boxes of a tracker's list before the edits, which may be left
                         out: lines frame,id,left,top,width,height, with frames from 1
       --hold N          keeps a box for N frames before and after its track (the lines of one
                         id), and fills gaps in it of up to N frames by the box around both sides
       --margin PX       how many pixels more of each box on each side: without it 2, and at
                         least a sample
       --with WORD V     in the place of a cover for each box: fill V, fill R,G,B, mosaic TW,TH,
                         means TW,TH or blur R; of these only fill hides it
       --require-box     a frame without a box is a fault, known at the end
       --report FILE     writes frame,left,top,width,height of each box and each cover, where
                         the output has it, with frames from 1
       --frames N        another number of frames is a fault, known at the end; a list may
                         say it itself, by a line # frames N
       --strict          what else is a note is a fault: a range that the input doesn't reach,
                         a cover that covers nothing, and an edit that comes too late
       --limit BYTES     how many bytes all buffers may have: 1073741824 without it
       --help, -h        prints this
       --version         prints the version
Cover first: a move, a mosaic, means or a blur before a cover may show what it covers.
The guide is FRAMES.md in share/doc/imgref, /usr/share/doc/imgref-tools, or docs of the sources.";

// The version of the program and of the library.
const VERSION: &str = "imgref_frames 0.5.0";

// No files of edits.
const NO_TEXTS: Texts<'static> = Texts {
    boxes: None,
    hold: None,
    edits: None,
};

// How many bytes are read ahead: as many as a pipe holds.
const AHEAD: usize = 65536;

// What a run needs besides its input and its output. The texts are those of the files of edits, for
// messages.
#[derive(Clone, Copy)]
struct Call<'a> {
    rt: &'a HostRuntime,
    options: Options,
    edits: &'a Edits,
    texts: Texts<'a>,
    words: &'a [String],
}

// Prints which file a fault is about, and its cause, where it is known.
fn say_cause(rt: &HostRuntime, fault: RunFault, name: Option<&str>, cause: Option<&io::Error>) {
    let (stream, done) = match fault {
        RunFault::Input => ("input", "read"),
        _ => ("output", "written"),
    };
    let _ = match name {
        Some(name) => eprint!(rt; "the {stream} {name} can't be {done}"),
        None => eprint!(rt; "standard {stream} can't be {done}"),
    };
    let _ = match cause {
        Some(error) => eprintln!(rt; ": {error}"),
        None => eprintln!(rt; ""),
    };
}

// The new files of a run, which get their names at its end.
#[derive(Drop)]
struct Made {
    output: Option<NewFile>,
    report: Option<NewFile>,
}

impl Made {
    // Removes the files that have no name yet.
    fn remove(&self, rt: &HostRuntime) {
        if let Some(output) = &self.output {
            output.remove(rt);
        }
        if let Some(report) = &self.report {
            report.remove(rt);
        }
    }
}

impl Call<'_> {
    // The name of the input or of the output that a fault is about, where it has one.
    fn name_of(&self, fault: RunFault) -> Option<&str> {
        match fault {
            RunFault::Input => name_at(self.words, self.options.input),
            _ => name_at(self.words, self.options.output),
        }
    }

    // Prints the fault of a device and its cause.
    fn say_device(&self, fault: RunFault, cause: Option<&io::Error>) {
        let _ = eprintln!(self.rt; "{fault}");
        say_cause(self.rt, fault, self.name_of(fault), cause);
    }

    // Prints the fault and why it came.
    fn say_fault(&self, fault: RunFault, seen: &Seen) {
        let _ = eprintln!(self.rt; "{fault}");
        if !matches!(fault, RunFault::Outside) {
            say_reason(self.rt, fault, seen, self.options.limit);
            return;
        }
        let unsuited = match seen.shape() {
            Some(shape) => unsuited_in_frame(shape, self.edits),
            None => None,
        };
        say_outside(self.rt, seen, unsuited, self.edits, self.texts);
    }

    // Prints the fault of the report and its cause.
    fn say_report(&self, error: &io::Error) {
        let name = name_at(self.words, self.options.report).unwrap_or("");
        let _ = eprintln!(self.rt; "{}", RunFault::Output);
        let _ = eprintln!(self.rt; "the report {name} can't be written: {error}");
    }

    // The fault of a file that can't be opened, or of memory for it. The status tells of the fault
    // even where nothing can be printed.
    fn fail_at(&self, error: io::Error, fault: RunFault) -> u8 {
        if error.kind() == ErrorKind::OutOfMemory {
            let fault = RunFault::Memory(0);
            self.say_fault(fault, &Seen::nothing(self.rt.alloc()));
            fault.status()
        } else {
            self.say_device(fault, Some(&error));
            fault.status()
        }
    }

    // Runs the edits over the input, and returns what the run ends as.
    fn pass(&self, input: BufReader<Source>, output: Sink, report: Option<File>) -> Ending {
        let mut seen = match report {
            Some(_) => Seen::for_report(self.rt.alloc()),
            None => Seen::nothing(self.rt.alloc()),
        };
        let mut reader = Counted::new(input);
        let mut writer = Counted::new(Retried::new(output));
        let outcome = run(
            self.rt.alloc(),
            self.options.limit,
            &self.edits.steps,
            self.edits.framing,
            &mut seen,
            &mut reader,
            &mut writer,
        );
        let (source, sink) = (reader.device().get_ref(), writer.device().device());
        let is_kept = match outcome {
            Ok(count) => self.keep(sink, &seen, count, report),
            Err(_) => true,
        };
        if let Err(fault) = outcome {
            self.tell(fault, &seen, source, sink);
        }
        let ending = ending_of(self.noted(), self.options, &seen, outcome, is_kept);
        let _ = tell_found(
            self.noted(),
            self.options,
            &seen,
            outcome,
            ending.found,
            &mut self.rt.stderr(),
        );
        ending
    }

    // Waits until the output is on its disk, and writes the report of so many frames. Where that
    // fails, it prints why.
    fn keep(&self, sink: &Sink, seen: &Seen, count: u64, report: Option<File>) -> bool {
        if let Err(error) = sink.sync() {
            self.say_device(RunFault::Output, Some(&error));
            return false;
        }
        let Some(file) = report else {
            return true;
        };
        match self.write_report(seen, count, file) {
            Ok(()) => true,
            Err(error) => {
                self.say_report(&error);
                false
            }
        }
    }

    fn write_report(&self, seen: &Seen, count: u64, file: File) -> io::Result<()> {
        let alloc = self.rt.alloc();
        let mut writer = BufWriter::new(alloc, file)?;
        write_report(alloc, seen, count, self.edits, &mut writer)?;
        writer.flush()?;
        writer.get_ref().sync_all()
    }

    // Prints the fault of a run, and what is known of its edits.
    fn tell(&self, fault: RunFault, seen: &Seen, source: &Source, sink: &Sink) {
        let cause = match fault {
            RunFault::Input => source.failure(),
            RunFault::Output => sink.failure(),
            _ => return self.tell_early(fault, seen, source.front()),
        };
        self.say_device(fault, cause);
        self.note_covers(seen, seen.last().saturating_add(1));
    }

    // Prints a fault of what the input has, and what is known of its edits.
    fn tell_early(&self, fault: RunFault, seen: &Seen, front: &[u8]) {
        self.say_fault(fault, seen);
        match fault {
            RunFault::Header => say_no_head(self.rt, front),
            RunFault::Frame(count) => {
                self.note_covers(seen, count);
                self.note_ranges(seen, count);
            }
            _ => self.note_covers(seen, seen.last()),
        }
    }

    // The edits, for notes about them.
    fn noted(&self) -> Noted<'_> {
        Noted {
            alloc: self.rt.alloc(),
            steps: &self.edits.steps,
            texts: self.texts,
            strict: self.options.strict,
        }
    }

    // Prints which covers cover nothing in so many frames.
    fn note_covers(&self, seen: &Seen, count: u64) {
        let mut errors = self.rt.stderr();
        let _ = self.noted().say_uncovered(seen, count, &mut errors);
    }

    // Prints which ranges so many frames don't reach.
    fn note_ranges(&self, seen: &Seen, count: u64) {
        let mut errors = self.rt.stderr();
        let _ = self.noted().say_unreached(count, seen.rate(), &mut errors);
    }

    // The new file of the output, where it has a name, or standard output.
    fn create_output(&self) -> io::Result<(Sink, Option<NewFile>)> {
        match name_at(self.words, self.options.output) {
            Some(name) => {
                let (file, made) = NewFile::create(self.rt, name)?;
                Ok((Sink::named(file), Some(made)))
            }
            None => Ok((Sink::standard(self.rt), None)),
        }
    }

    // The new file of the report, where one is asked for. Its name may not be the one that the output
    // has until it is whole.
    fn create_report(
        &self,
        output: Option<&NewFile>,
    ) -> io::Result<(Option<File>, Option<NewFile>)> {
        let Some(name) = name_at(self.words, self.options.report) else {
            return Ok((None, None));
        };
        if let Some(output) = output {
            output.check_apart(self.rt, name)?;
        }
        let (file, made) = NewFile::create(self.rt, name)?;
        Ok((Some(file), Some(made)))
    }

    // Gives the new files their names, the report before the output. Returns the status: where a name
    // can't be given, no new file has one.
    fn give_names(&self, made: &Made) -> u8 {
        if let Some(report) = &made.report {
            if let Err(error) = report.give_name(self.rt) {
                made.remove(self.rt);
                self.say_report(&error);
                return RunFault::Output.status();
            }
        }
        if let Some(output) = &made.output {
            if let Err(error) = output.give_name(self.rt) {
                output.remove(self.rt);
                if let Some(report) = &made.report {
                    report.take_name(self.rt);
                }
                self.say_device(RunFault::Output, Some(&error));
                return RunFault::Output.status();
            }
        }
        0
    }

    // The same with new files for the output and the report. Only a run that ends well gives them
    // their names.
    fn pass_to(&self, input: BufReader<Source>) -> u8 {
        let (sink, output) = match self.create_output() {
            Ok(made) => made,
            Err(error) => return self.fail_at(error, RunFault::Output),
        };
        let (file, report) = match self.create_report(output.as_ref()) {
            Ok(made) => made,
            Err(error) => {
                if let Some(output) = &output {
                    output.remove(self.rt);
                }
                self.say_report(&error);
                return RunFault::Output.status();
            }
        };
        let made = Made { output, report };
        let ending = self.pass(input, sink, file);
        if ending.is_named {
            return self.give_names(&made);
        }
        made.remove(self.rt);
        ending.status
    }

    // The same with the input that the options name.
    fn run(&self) -> u8 {
        let source = match Source::open(self.rt, name_at(self.words, self.options.input)) {
            Ok(source) => source,
            Err(error) => return self.fail_at(error, RunFault::Input),
        };
        match BufReader::with_capacity(self.rt.alloc(), AHEAD, source) {
            Ok(input) => self.pass_to(input),
            Err(_) => {
                let fault = RunFault::Memory(0);
                self.say_fault(fault, &Seen::nothing(self.rt.alloc()));
                fault.status()
            }
        }
    }
}

/// Reads a video or pictures, edits each as the words say, and writes them. Where the run ends with
/// a fault, the program prints the fault and its reason to standard error, and exits with its
/// status.
fn main(rt: HostRuntime) -> ExitCode {
    let Ok(_filled) = fill_descriptors(&rt) else {
        return end(&rt, RunFault::Output);
    };
    let words = match words_of(&rt) {
        Ok(words) => words,
        Err(refusal) => return refuse(&rt, refusal, &[], NO_TEXTS),
    };
    let mut bytes = Vec::new(rt.alloc());
    for word in &words {
        if bytes.push(word.as_bytes()).is_err() {
            return end(&rt, RunFault::Memory(0));
        }
    }
    if bytes.len() == 2 {
        if bytes[1] == b"--help".as_slice() || bytes[1] == b"-h".as_slice() {
            let _ = println!(rt; "{USAGE}");
            return ExitCode::SUCCESS;
        }
        if bytes[1] == b"--version".as_slice() {
            let _ = println!(rt; "{VERSION}");
            return ExitCode::SUCCESS;
        }
    }
    let options = match read_options(&bytes) {
        Ok(options) => options,
        Err(misread) => return refuse(&rt, Refusal::NoOption(misread), &bytes, NO_TEXTS),
    };
    edit(&rt, options, &words, &bytes)
}

// The word at this place.
fn name_at(words: &[String], at: Option<usize>) -> Option<&str> {
    let word = words.get(at?)?;
    Some(word.as_str())
}

// The text of the file with the name at this place, where there is one.
fn text_at(rt: &HostRuntime, words: &[String], at: Option<usize>) -> io::Result<Option<Vec<u8>>> {
    match name_at(words, at) {
        Some(name) => Ok(Some(read_whole(rt, name)?)),
        None => Ok(None),
    }
}

// The file of the word at this place, or that of standard input where the word is `-`.
fn list_id<'a>(rt: &HostRuntime, words: &'a [String], at: Option<usize>) -> Option<FileId<'a>> {
    let name = name_at(words, at)?;
    if name == "-" {
        standard_id(rt, false)
    } else {
        id_of(rt, name)
    }
}

// The file of the word at this place, or that of a standard stream where there is no word.
fn stream_id<'a>(
    rt: &HostRuntime,
    words: &'a [String],
    at: Option<usize>,
    writes: bool,
) -> Option<FileId<'a>> {
    match name_at(words, at) {
        Some(name) => id_of(rt, name),
        None => standard_id(rt, writes),
    }
}

// The files that a run reads and writes.
fn files_of<'a>(rt: &HostRuntime, options: Options, words: &'a [String]) -> Files<'a> {
    Files {
        input: stream_id(rt, words, options.input, false),
        edits: list_id(rt, words, options.edits),
        boxes: list_id(rt, words, options.boxes),
        output: stream_id(rt, words, options.output, true),
        report: match name_at(words, options.report) {
            Some(name) => id_of(rt, name),
            None => None,
        },
        is_renamed: options.output.is_some(),
    }
}

// What becomes of each box of a list.
fn style_of(options: Options) -> BoxStyle {
    let cover = BoxStyle::cover(options.margin);
    BoxStyle {
        change: options.with.unwrap_or(cover.change),
        ..cover
    }
}

// Finds the edits, and goes on with them.
fn edit(rt: &HostRuntime, options: Options, words: &[String], bytes: &[&[u8]]) -> ExitCode {
    if options.edits.is_some() && options.first < bytes.len() {
        return refuse(rt, Refusal::Beside(options.first), bytes, NO_TEXTS);
    }
    if let Some(name) = options.lacks_boxes() {
        let _ = eprintln!(rt; "fault words");
        let _ = eprintln!(rt; "{name} is for the boxes of a list, so it needs --boxes");
        return say_help(rt);
    }
    if reads_input_twice(options, bytes) {
        return refuse(rt, Refusal::OneInput, bytes, NO_TEXTS);
    }
    if let Some((one, other)) = shared_file(&files_of(rt, options, words)) {
        let _ = eprintln!(rt; "fault words");
        say_shared(rt, one, other);
        return say_help(rt);
    }
    let boxes = match text_at(rt, words, options.boxes) {
        Ok(text) => text,
        Err(error) => return refuse_file(rt, error, "boxes", name_at(words, options.boxes)),
    };
    let text = match text_at(rt, words, options.edits) {
        Ok(text) => text,
        Err(error) => return refuse_file(rt, error, "edits", name_at(words, options.edits)),
    };
    let texts = Texts {
        boxes: boxes.as_deref(),
        hold: options.hold,
        edits: text.as_deref(),
    };
    let words_left = &bytes[options.first.min(bytes.len())..];
    match edits_asked(
        rt.alloc(),
        style_of(options),
        texts.boxes,
        texts.hold,
        texts.edits,
        words_left,
    ) {
        Ok(edits) => carry(rt, options, words, &edits, texts),
        Err(refusal) => refuse(rt, refusal, words_left, texts),
    }
}

// Runs the edits.
fn carry(
    rt: &HostRuntime,
    options: Options,
    words: &[String],
    edits: &Edits,
    texts: Texts<'_>,
) -> ExitCode {
    let call = Call {
        rt,
        options,
        edits,
        texts,
        words,
    };
    let late = match call.noted().say_late(&mut rt.stderr()) {
        Ok(late) => late,
        Err(_) => return end(rt, RunFault::Memory(0)),
    };
    if let Some(status) = order_status(options.strict, late) {
        return ExitCode::from(status);
    }
    if let Some(change) = options.with {
        say_boxes(rt, change);
    }
    if let Some(text) = texts.boxes {
        say_odd_boxes(rt, text);
    }
    if has_blur(&edits.steps) {
        let _ = eprintln!(rt; "note: a blur hides nothing: cover what has to stay secret first");
    }
    ExitCode::from(call.run())
}

// The status tells of the fault even where its text can't be printed.
fn refuse(rt: &HostRuntime, refusal: Refusal, words: &[&[u8]], texts: Texts<'_>) -> ExitCode {
    if refusal == Refusal::Memory {
        return end(rt, RunFault::Memory(0));
    }
    let _ = eprintln!(rt; "fault words");
    say_no_words(rt, refusal, words, texts);
    say_help(rt)
}

// Names the help after a fault of the words, and returns the status.
fn say_help(rt: &HostRuntime) -> ExitCode {
    let _ = eprintln!(rt; "imgref_frames --help lists the edits and the options");
    ExitCode::from(1)
}

// The same of a file that names edits and can't be read.
fn refuse_file(rt: &HostRuntime, error: io::Error, list: &str, name: Option<&str>) -> ExitCode {
    if error.kind() == ErrorKind::OutOfMemory {
        return end(rt, RunFault::Memory(0));
    }
    let _ = eprintln!(rt; "fault words");
    let _ = eprintln!(rt;
        "the {list} file {} can't be read: {error}",
        name.unwrap_or("-")
    );
    say_help(rt)
}

fn end(rt: &HostRuntime, fault: RunFault) -> ExitCode {
    let _ = eprintln!(rt; "{fault}");
    ExitCode::from(fault.status())
}
