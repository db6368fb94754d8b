// A program that runs: what it says of itself, what it reads and what it answers.
ghost use Rattle.std.specs.Prelude.{◌<◌};
ghost use Rattle.cli.specs.Counts.{IsPrefixLen};

use crate::{
    Input, Source, VERSION, has_word, is_option, is_standard, is_word, open, output_file, read,
    say_reason, settle, to_error, word_at,
};
use std::io;
use std::io::{ErrorKind, Write};
use std::rt::Env;

// The system that it runs on; its name, and what it tells where it is asked for help or used wrongly.
#[derive(Clone, Copy)]
pub struct Program<'a> {
    pub rt: &'a HostRuntime,
    pub name: &'a [u8],
    pub help: &'a [u8],
    pub usage: &'a [u8],
}

impl<'a> Program<'a> {
    // Answers `-h`, `--help` and `--version` as word i, and tells whether that was asked.
    pub fn tells_at(&self, i: usize) -> bool {
        if is_word(self.rt, i, b"-h") || is_word(self.rt, i, b"--help") {
            self.answer(self.help);
            return true;
        }
        if is_word(self.rt, i, b"--version") {
            self.answer(VERSION);
            return true;
        }
        false
    }

    // The same as the first word.
    pub fn tells(&self) -> bool {
        self.tells_at(1)
    }

    // A line on standard error.
    pub fn say(&self, what: &[u8]) {
        to_error(self.rt, self.name);
        to_error(self.rt, b": ");
        to_error(self.rt, what);
        to_error(self.rt, b"\n");
    }

    // The same with word i of the command line in its midst.
    pub fn say_word(&self, before: &[u8], i: usize, behind: &[u8]) {
        let mut word = [0u8; 4096];
        let n = word_at(self.rt, i, &mut word);
        to_error(self.rt, self.name);
        to_error(self.rt, b": ");
        to_error(self.rt, before);
        to_error(self.rt, &word[..n]);
        to_error(self.rt, behind);
        to_error(self.rt, b"\n");
    }

    // A line about a call that failed, with the reason.
    pub fn fail(&self, what: &[u8], error: io::Error) {
        to_error(self.rt, self.name);
        to_error(self.rt, b": ");
        to_error(self.rt, what);
        to_error(self.rt, b": ");
        say_reason(self.rt, error);
        to_error(self.rt, b"\n");
    }

    // A name on the command line has more bytes than there is room for.
    pub fn fail_long(&self, what: &[u8]) {
        let error = io::Error::new(ErrorKind::InvalidFilename, "File name too long");
        self.fail(what, error);
    }

    // A wrong use: why, and the usage.
    pub fn refuse(&self, why: &[u8]) {
        self.say(why);
        to_error(self.rt, self.usage);
    }

    // The same with word i in the midst.
    pub fn refuse_word(&self, before: &[u8], i: usize, behind: &[u8]) {
        self.say_word(before, i, behind);
        to_error(self.rt, self.usage);
    }

    // Whether word i, which may be the file and is the last, is an option, or a word stands behind it; either is said.
    pub fn is_misused(&self, i: usize, behind_option: &[u8], before_word: &[u8]) -> bool
        requires { i < 32 }
    {
        if is_option(self.rt, i) {
            self.refuse_word(b"there is no option ", i, behind_option);
            return true;
        }
        if has_word(self.rt, i + 1) {
            self.refuse_word(before_word, i + 1, b"");
            return true;
        }
        false
    }

    // A part of an answer on standard output. Behind a part that could not be written nothing may follow.
    pub fn write(&self, text: &[u8]) -> bool {
        match self.rt.stdout().write_all(text) {
            Ok(()) => true,
            Err(e) => {
                self.fail(b"standard output", e);
                false
            }
        }
    }

    // The end of an answer: some systems tell only here that it could not be written.
    pub fn finish(&self) -> bool {
        let Some(file) = output_file(self.rt) else {
            return true;
        };
        match settle(&file) {
            Ok(()) => true,
            Err(e) => {
                self.fail(b"standard output", e);
                false
            }
        }
    }

    // A whole answer.
    pub fn answer(&self, text: &[u8]) -> bool {
        if !self.write(text) {
            return false;
        }
        self.finish()
    }

    // Opens the input that word i names; none where that fails, which is then said.
    pub fn open_at(&self, i: usize) -> Option<Source> {
        if is_standard(self.rt, i) {
            return Some(Source::Standard(self.rt.stdin()));
        }
        let mut name = [0u8; 4096];
        let Ok(n) = self.rt.arg(i, &mut name) else {
            self.fail_long(b"the name of a file");
            return None;
        };
        match open(self.rt, &name[..n]) {
            Ok(file) => Some(Source::Named(file)),
            Err(e) => {
                self.fail(&name[..n], e);
                None
            }
        }
    }

    // Says why an input failed that is standard input or has this name.
    fn fail_input(&self, standard: bool, name: &[u8], error: io::Error) {
        if standard {
            self.fail(b"standard input", error);
            return;
        }
        self.fail(name, error);
    }

    // The input that word i names, read until the buffer is full or the input ends. Where that fails it is said, and the input is not whole.
    pub fn read_at(&self, i: usize, buf: &mut [u8]) -> Input
        ensures { IsPrefixLen result.count buf.new }
    {
        let standard = is_standard(self.rt, i);
        let mut name = [0u8; 4096];
        let n = word_at(self.rt, i, &mut name);
        let Some(mut file) = self.open_at(i) else {
            return Input {
                whole: false,
                count: 0,
                error: None,
            };
        };
        let r = read(&mut file, buf);
        if let Some(e) = r.error {
            self.fail_input(standard, &name[..n], e);
        }
        r
    }
}
