//! Prints what each node of a card network does with one card, all refusals of its tables, a picture of it, or a printed trace as a table.
#![tactic(auto)]

use bundle_input::BundleFault;
use card_digits::{Card, Counted, Prefix, Sink, Source};
use card_json::run_card_json;
use card_view::{Asked, run_view};
use network_picture::{PictureJob, run_picture};
use std::alloc::{AllocError, Global};
use std::process::ExitCode;
use std::rt::Env;
use std::{env, io};
use trace_view::run_trace;
use view_command::{Drawing, Format, Job, help_of, job_of};

/// What is asked of the input.
#[derive(Clone, Copy, Debug)]
enum Question {
    View(Asked),
    /// What each node does with a card, as a JSON object.
    CardJson(Card),
    Picture(PictureJob),
    Trace,
}

/// What the words ask for.
#[derive(Debug, Drop)]
enum Request {
    Answer(Question),
    Help(String),
    /// Nothing that is printed.
    Other,
}

/// The words behind the program's name.
fn words(rt: &(impl Env + AllocGlobal)) -> io::Result<Vec<String>> {
    let mut words = Vec::new(rt.alloc());
    for word in env::args(rt)?.skip(1) {
        words.push(word)?;
    }
    Ok(words)
}

/// How refusals are written, as the words say.
fn written(format: Format) -> card_view::Format {
    match format {
        Format::Text => card_view::Format::Text,
        Format::Json => card_view::Format::Json,
    }
}

/// What a picture is written in, as the words say.
fn drawn(drawing: Drawing) -> network_picture::Drawing {
    match drawing {
        Drawing::Svg => network_picture::Drawing::Svg,
        Drawing::Dot => network_picture::Drawing::Dot,
    }
}

fn card_question(card: &Card, format: Format) -> Request {
    match format {
        Format::Text => Request::Answer(Question::View(Asked::Card(*card))),
        Format::Json => Request::Answer(Question::CardJson(*card)),
    }
}

fn refusals_question(format: Format) -> Request {
    Request::Answer(Question::View(Asked::Refusals(written(format))))
}

fn picture_question(prefix: &Option<Prefix>, drawing: Drawing) -> Request {
    let drawing = drawn(drawing);
    Request::Answer(Question::Picture(PictureJob {
        prefix: *prefix,
        drawing,
    }))
}

fn request_of_job(job: &Job) -> Request {
    match job {
        Job::Card(card, format) => card_question(card, *format),
        Job::Refusals(format) => refusals_question(*format),
        Job::Picture(prefix, drawing) => picture_question(prefix, *drawing),
        Job::Trace => Request::Answer(Question::Trace),
    }
}

fn request_of_help(alloc: Global, texts: &[&str]) -> Result<Request, AllocError> {
    match help_of(alloc, texts)? {
        Some(help) => Ok(Request::Help(help)),
        None => Ok(Request::Other),
    }
}

fn request_of_texts(alloc: Global, texts: &[&str]) -> Result<Request, AllocError> {
    match job_of(alloc, texts)? {
        Some(job) => Ok(request_of_job(&job)),
        None => request_of_help(alloc, texts),
    }
}

fn request_of_words(alloc: Global, words: &[String]) -> Result<Request, AllocError> {
    let mut texts = Vec::new(alloc);
    for word in words {
        texts.push(word.as_str())?;
    }
    request_of_texts(alloc, &texts)
}

fn request_of_arguments(rt: &(impl Env + AllocGlobal)) -> Result<Request, AllocError> {
    match words(rt) {
        Ok(words) => request_of_words(rt.alloc(), &words),
        // Words that are no text ask for nothing.
        Err(fault) if fault.kind() == io::ErrorKind::InvalidData => Ok(Request::Other),
        Err(_) => Err(AllocError),
    }
}

/// Answers the input on standard output.
fn answer<R: Source, W: Sink>(
    alloc: Global,
    question: &Question,
    reader: &mut R,
    writer: &mut W,
) -> Result<u8, BundleFault> {
    match question {
        Question::View(asked) => run_view(alloc, asked, reader, writer),
        Question::CardJson(card) => run_card_json(alloc, card, reader, writer),
        Question::Picture(job) => run_picture(alloc, job, reader, writer),
        Question::Trace => run_trace(alloc, reader, writer),
    }
}

fn main(rt: HostRuntime) -> ExitCode {
    let status = match request_of_arguments(&rt) {
        Ok(Request::Answer(question)) => {
            let mut reader = Counted::reader(rt.stdin());
            let mut writer = Counted::writer(rt.stdout());
            match answer(rt.alloc(), &question, &mut reader, &mut writer) {
                Ok(status) => status,
                Err(_) => 2,
            }
        }
        Ok(Request::Help(help)) => match print!(rt; "{help}") {
            Ok(()) => 0,
            Err(_) => 2,
        },
        Ok(Request::Other) => {
            let _ = eprintln!(rt;
                "usage: network_view card N [--json]\n       network_view refusals [--json]\n       network_view picture [--prefix P] [--dot]\n       network_view trace"
            );
            2
        }
        Err(_) => {
            let _ = println!(rt; "fault bundle 4 memory");
            2
        }
    };
    ExitCode::from(status)
}
