//! The rows, line by line.
use crate::command::{Answer, answered_formula, command_on, reduced_command, run_command};
use crate::escape::push_text;
use std::alloc::{AllocError, Global};
use std::rt::Files;
use std::{fs, io, mem};

/// The most bytes that the answer of a row may have.
const ROW_ROOM: usize = 65_536;

/// The most bytes that may be put behind a problem.
const BEHIND_ROOM: usize = 16_777_216;

/// What the next line is a part of.
#[derive(Clone, Copy, PartialEq, Eq)]
enum Part {
    Nothing,
    Problem,
    Wanted,
}

/// What has been read of the rows.
#[derive(Drop)]
pub struct Rows {
    alloc: Global,
    /// How many lines came.
    lines: u64,
    part: Part,
    problem: Vec<u8>,
    /// Where in it begins what stands behind it for the next row alone.
    behind: Option<usize>,
    /// Some row is about the problem.
    is_used: bool,
    command: String,
    wanted: Vec<u8>,
    passed: u32,
    failed: u32,
}

impl Rows {
    /// No rows.
    pub fn new(alloc: Global) -> Rows {
        Rows {
            alloc,
            lines: 0,
            part: Part::Nothing,
            problem: Vec::new(alloc),
            behind: None,
            is_used: true,
            command: String::new(alloc),
            wanted: Vec::new(alloc),
            passed: 0,
            failed: 0,
        }
    }

    /// How many rows passed.
    pub fn passed(&self) -> u32 {
        self.passed
    }

    /// How many rows differ, or aren't rows.
    pub fn failed(&self) -> u32 {
        self.failed
    }

    /// Takes the next line; at the end of a row its command is run.
    pub fn take<R: Files + Print + AllocGlobal>(&mut self, rt: &R, line: &str) -> io::Result<()> {
        self.lines = self.lines.saturating_add(1);
        if line.starts_with('#') {
            return Ok(());
        }
        if let Some(name) = line.strip_prefix("== ") {
            return self.begin_problem(rt, name);
        }
        if line == "$" {
            return self.begin_row(rt, "");
        }
        if let Some(command) = line.strip_prefix("$ ") {
            return self.begin_row(rt, command);
        }
        if let Some(status) = line.strip_prefix("= ") {
            return self.end_row(rt, status);
        }
        if let Some(command) = line.strip_prefix("+ ") {
            return self.put_behind(rt, command);
        }
        if line.starts_with('$') || line.starts_with('=') {
            return self.fail(rt, "this begins no row, no problem and no status");
        }
        self.go_on(rt, line)
    }

    /// What is open behind the last line fails.
    pub fn finish<R: Print>(&mut self, rt: &R) -> io::Result<()> {
        self.end_open_row(rt)?;
        self.end_problem(rt)
    }

    fn fail<R: Print>(&mut self, rt: &R, why: &str) -> io::Result<()> {
        self.failed = self.failed.saturating_add(1);
        let line = self.lines;
        println!(rt; "line {line}: {why}")
    }

    /// A row that has no status fails.
    fn end_open_row<R: Print>(&mut self, rt: &R) -> io::Result<()> {
        if self.part == Part::Wanted {
            return self.fail(rt, "the row before has no status");
        }
        Ok(())
    }

    /// A problem that has no row fails.
    fn end_problem<R: Print>(&mut self, rt: &R) -> io::Result<()> {
        if !self.is_used {
            return self.fail(rt, "the problem before has no row");
        }
        Ok(())
    }

    fn begin_problem<R: Files + Print + AllocGlobal>(
        &mut self,
        rt: &R,
        name: &str,
    ) -> io::Result<()> {
        self.end_open_row(rt)?;
        self.end_problem(rt)?;
        self.part = Part::Problem;
        self.is_used = false;
        self.problem.clear();
        self.behind = None;
        if let Some(path) = name.strip_prefix("< ") {
            let text = fs::read(rt, path)?;
            self.problem.extend_from_slice(text.as_slice())?;
            self.part = Part::Nothing;
        }
        Ok(())
    }

    fn begin_row<R: Print>(&mut self, rt: &R, command: &str) -> io::Result<()> {
        self.end_open_row(rt)?;
        self.part = Part::Wanted;
        self.is_used = true;
        self.wanted.clear();
        self.command = String::from_str(self.alloc, command)?;
        Ok(())
    }

    /// Puts what a command prints behind the problem, up to the end of the next row.
    fn put_behind<R: Print + AllocGlobal>(&mut self, rt: &R, command: &str) -> io::Result<()> {
        self.end_open_row(rt)?;
        self.part = Part::Nothing;
        self.is_used = false;
        self.behind = Some(self.behind.unwrap_or(self.problem.len()));
        match run_command(self.alloc, command, self.problem.as_slice(), BEHIND_ROOM)? {
            Some(answer) if answer.status == 0 && answer.is_whole => {
                self.problem.push(b'\n')?;
                self.problem.extend_from_slice(answer.text.as_slice())?;
                Ok(())
            }
            _ => self.fail(rt, "this doesn't print what could stand behind the problem"),
        }
    }

    /// A line of a problem or of a wanted text, or a blank one between rows.
    fn go_on<R: Print>(&mut self, rt: &R, line: &str) -> io::Result<()> {
        match self.part {
            Part::Nothing if line.is_empty() => Ok(()),
            Part::Nothing => self.fail(rt, "this stands between rows"),
            Part::Problem => {
                if !self.push_problem(line)? {
                    return self.fail(rt, "a backslash that begins no escape");
                }
                Ok(())
            }
            Part::Wanted => {
                self.wanted.extend_from_slice(line.as_bytes())?;
                self.wanted.push(b'\n')?;
                Ok(())
            }
        }
    }

    /// Appends a line of a problem, and says whether each of its backslashes begins an escape or ends the line.
    fn push_problem(&mut self, line: &str) -> Result<bool, AllocError> {
        if let Some(front) = line.strip_suffix('\\') {
            return push_text(&mut self.problem, front);
        }
        let is_text = push_text(&mut self.problem, line)?;
        self.problem.push(b'\n')?;
        Ok(is_text)
    }

    fn end_row<R: Print + AllocGlobal>(&mut self, rt: &R, status: &str) -> io::Result<()> {
        if self.part != Part::Wanted {
            return self.fail(rt, "a status without a row");
        }
        self.part = Part::Nothing;
        let command = mem::replace(&mut self.command, String::new(self.alloc));
        self.run_row(rt, command.as_str(), status)?;
        if let Some(reduced) = reduced_command(self.alloc, command.as_str(), status)? {
            self.run_row(rt, reduced.as_str(), status)?;
        }
        if self.problem.len() <= ROW_ROOM {
            self.certify_answer(rt, command.as_str(), status)?;
        }
        if let Some(length) = self.behind {
            self.problem.truncate(length);
            self.behind = None;
        }
        Ok(())
    }

    /// Certifies the answer to a command, with tables as they are and with reduced ones.
    fn certify_answer<R: Print + AllocGlobal>(
        &mut self,
        rt: &R,
        command: &str,
        status: &str,
    ) -> io::Result<()> {
        if let Some(formula) = answered_formula(command, "decide ", status) {
            self.certify(rt, "decide --certificate", formula, status)?;
            self.certify(rt, "decide --reduce --certificate", formula, status)?;
        }
        if let Some(formula) = answered_formula(command, "witness ", status) {
            let found = Vec::from_slice(self.alloc, self.wanted.as_slice())?;
            self.certify_terms(rt, "witness --certificate", formula, found.as_slice())?;
            self.certify_terms(
                rt,
                "witness --reduce --certificate",
                formula,
                found.as_slice(),
            )?;
        }
        Ok(())
    }

    /// Whether a command refuses its formula, in which no variable is free.
    fn is_closed(&self, command: &str) -> Result<bool, AllocError> {
        Ok(
            match run_command(self.alloc, command, self.problem.as_slice(), BEHIND_ROOM)? {
                Some(answer) => answer.text.as_slice() == b"REFUSED formula closed\n".as_slice(),
                None => false,
            },
        )
    }

    /// Puts the certificate of terms that a command writes behind the problem for the check of it, which has to print what was found. Of a closed
    /// formula there is none.
    fn certify_terms<R: Print + AllocGlobal>(
        &mut self,
        rt: &R,
        writing: &str,
        formula: &str,
        found: &[u8],
    ) -> io::Result<()> {
        let length = self.problem.len();
        let command = command_on(self.alloc, writing, formula)?;
        if self.is_closed(command.as_str())? {
            return Ok(());
        }
        self.put_behind(rt, command.as_str())?;
        self.wanted.clear();
        self.wanted.extend_from_slice(b"CERTIFIED ")?;
        self.wanted.extend_from_slice(found)?;
        let confirm = command_on(self.alloc, "confirm", formula)?;
        self.run_row(rt, confirm.as_str(), "0")?;
        self.problem.truncate(length);
        self.is_used = true;
        Ok(())
    }

    /// Puts the certificate that a command writes behind the problem for the check of it, which has to find the verdict of this status.
    fn certify<R: Print + AllocGlobal>(
        &mut self,
        rt: &R,
        writing: &str,
        formula: &str,
        status: &str,
    ) -> io::Result<()> {
        let length = self.problem.len();
        let command = command_on(self.alloc, writing, formula)?;
        self.put_behind(rt, command.as_str())?;
        let verdict = if status == "0" {
            "CERTIFIED YES\n"
        } else {
            "CERTIFIED NO\n"
        };
        self.wanted.clear();
        self.wanted.extend_from_slice(verdict.as_bytes())?;
        let check = command_on(self.alloc, "check", formula)?;
        self.run_row(rt, check.as_str(), "0")?;
        self.problem.truncate(length);
        self.is_used = true;
        Ok(())
    }

    /// Runs a command, which has to print the wanted text.
    fn run_row<R: Print + AllocGlobal>(
        &mut self,
        rt: &R,
        command: &str,
        status: &str,
    ) -> io::Result<()> {
        match run_command(self.alloc, command, self.problem.as_slice(), ROW_ROOM)? {
            None => self.fail(rt, "a quoted word that isn't one"),
            Some(got) if self.is_wanted(&got, status) => {
                self.passed = self.passed.saturating_add(1);
                Ok(())
            }
            Some(got) => self.differs(rt, command, &got, status),
        }
    }

    /// A row whose answer isn't the wanted one.
    fn differs<R: Print>(
        &mut self,
        rt: &R,
        command: &str,
        got: &Answer,
        status: &str,
    ) -> io::Result<()> {
        self.failed = self.failed.saturating_add(1);
        let line = self.lines;
        let printed = got.status;
        let text = std::str::from_utf8(got.text.as_slice()).unwrap_or("(not UTF-8)\n");
        println!(rt;
            "line {line}: $ {command}: status {printed}, wanted {status}; the text is\n{text}"
        )
    }

    /// Whether an answer has this status and the wanted text.
    fn is_wanted(&self, got: &Answer, status: &str) -> bool {
        match status.parse::<u8>() {
            Ok(wanted) => got.is_whole && got.status == wanted && got.text == self.wanted,
            Err(_) => false,
        }
    }
}
