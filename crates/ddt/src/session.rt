//! A session of the debugger.

ghost use Rattle.std.specs.Prelude.{◌≡◌, ◌++◌, ◌∷◌, [], IfSome, IsTrue, None, false, is_some, string_bytes};
ghost use Rattle.machine.specs.Views.{job_view, word_in};
ghost use Rattle.ddt_commands.specs.declared.commands.OutputMode.TheVariants.{Symbolic};
ghost use Rattle.ddt_moves.specs.Turns.{ended_in};
ghost use Rattle.ddt_show.specs.Jobs.{IsJobLine};
ghost use Rattle.ddt_timeline.specs.Histories.{machine_of};
ghost use Rattle.ddt_timeline.specs.Views.{history};
ghost use Rattle.program_shell.specs.Texts.{Adds};
ghost use Rattle.ddt.specs.Obeying.{IsScope, job_of, job_there, open_word, shown_in, shown_there};
ghost use Rattle.ddt.specs.Showing.{AddsSome, address_by, line_in, next_here};

use crate::file_lines::FileLines;
use crate::recording::ScriptHead;
use ddt_commands::{OutputMode, Scope, Symbol};
use ddt_moves::{InputLines, StopList, ended_at};
use ddt_show::{ShownJob, address_line, address_text, job_line};
use ddt_timeline::Timeline;
use job_sched::Wait;
use program_shell::PendingText;
use source_labels::{Literals, Places};
use std::alloc::{AllocError, Global};
use word36::{JOBS, Word};

/// A job of a session.
#[derive(Drop)]
pub struct SessionJob {
    /// Its number, and where its labels and literals stand.
    pub shown: ShownJob,
    /// The name of its source's file, as it is shown.
    pub file: String,
    /// Its labels, with their addresses, and its names for numbers.
    pub symbols: Vec<Symbol>,
    /// The source that was written in place of its file's, if one was.
    pub written: Option<Vec<u8>>,
}

impl SessionJob {
    /// Fills its symbols with the labels of its source, and behind them the names for numbers.
    pub fn add_symbols(&mut self) -> Result<(), AllocError> {
        for label in self.shown.places.labels.as_slice() {
            self.symbols.push(Symbol {
                name: label.name,
                value: Word::low_bits(u64::from(label.place.number())),
            })?;
        }
        for number in self.shown.places.numbers.as_slice() {
            let (name, value) = (number.name, number.value);
            self.symbols.push(Symbol { name, value })?;
        }
        Ok(())
    }

    /// The source that it stands for, where this is that of its file.
    pub fn source_for<'s>(&'s self, own: &'s [u8]) -> &'s [u8] {
        match &self.written {
            Some(written) => written.as_slice(),
            None => own,
        }
    }
}

/// A session: what is open, where runs stop, and the answer. The machine, with all that has happened to it, stands beside it.
#[derive(Drop)]
pub struct Session {
    /// Where memory comes from.
    pub alloc: Global,
    /// The jobs, by number from 1 on, each at the terminal line behind that of the one before.
    pub jobs: Vec<SessionJob>,
    /// The number of the job that is open.
    pub open: u8,
    /// The mode in which words are shown.
    pub mode: OutputMode,
    /// The address that is open, or was open last: `.`.
    pub here: u32,
    /// Whether an address is open.
    pub is_open: bool,
    /// Whether the mask of searches is open in place of an address.
    pub is_mask: bool,
    /// The mask of searches: `$M`.
    pub mask: Word,
    /// Whether addresses are shown as numbers.
    pub is_absolute: bool,
    /// A job without labels, as which each is shown then.
    pub bare: ShownJob,
    /// The last quantity: `$Q`.
    pub last: Word,
    /// The stops that the user sets.
    pub list: StopList,
    /// The lines on the grant that ended a run last.
    pub grants: String,
    /// The lines that are typed where a job waits for characters.
    pub input: InputLines,
    /// The answer that is not written yet.
    pub answer: PendingText,
    /// The lines that were obeyed, with their ends.
    pub kept: Vec<u8>,
    /// The lines of the file that is obeyed.
    pub file_lines: FileLines,
    /// The sources, as a script begins with them.
    pub head: ScriptHead,
    /// The script of what has happened that `.RECORD` writes.
    pub script: Vec<u8>,
}

/// No labels and no literals.
fn no_places(alloc: Global) -> Places {
    Places {
        labels: Vec::new(alloc),
        literals: Literals { first: 0, end: 0 },
        pools: Vec::new(alloc),
        numbers: Vec::new(alloc),
    }
}

impl Session {
    /// A session without jobs, whose first will be open.
    pub fn new(alloc: Global) -> Self
        ensures jobs { (result.jobs.items ≡ []) × (result.open ≡ 1) }
        ensures place { (result.here ≡ 0) × (result.last ≡ 0) × (result.is_open ≡ false) × (result.is_mask ≡ false) }
        ensures mode { (result.mode ≡ Symbolic) × (result.is_absolute ≡ false) }
        ensures answer { (result.answer.bytes.items ≡ []) × IsTrue result.answer.is_whole }
    {
        Session {
            alloc,
            jobs: Vec::new(alloc),
            open: 1,
            mode: OutputMode::Symbolic,
            here: 0,
            is_open: false,
            is_mask: false,
            mask: Word::new(0).not(),
            is_absolute: false,
            bare: ShownJob {
                number: 0,
                places: no_places(alloc),
            },
            last: Word::new(0),
            list: StopList::new(),
            grants: String::new(alloc),
            input: InputLines::none(alloc),
            answer: PendingText::new(alloc),
            kept: Vec::new(alloc),
            file_lines: FileLines::none(alloc),
            head: ScriptHead::new(alloc),
            script: Vec::new(alloc),
        }
    }

    /// Ends the session, and gives back its memory and that of its machine.
    pub fn end(self, _timeline: Timeline) {}

    /// How many terminal lines have jobs: line 0 job 1, line 1 job 2, and so on.
    pub fn lines(&self) -> u8 {
        self.jobs.len().min(usize::from(JOBS)) as u8
    }

    /// The job of a number.
    fn job(&self, number: u8) -> Option<&SessionJob>
        ensures { job_there result ≡ job_of self.now number }
    {
        self.jobs
            .as_slice()
            .get(usize::from(number).saturating_sub(1))
    }

    /// The job that is open.
    pub fn open_job(&self) -> Option<&SessionJob>
        ensures { job_there result ≡ job_of self.now self.now.open }
    {
        self.job(self.open)
    }

    /// The job by whose labels addresses are shown: of a number, or that without labels.
    pub fn shown(&self, number: u8) -> Option<&ShownJob>
        ensures { shown_there result ≡ shown_in self.now number }
    {
        match self.job(number) {
            Some(job) if !self.is_absolute => Some(&job.shown),
            Some(_) => Some(&self.bare),
            None => None,
        }
    }

    /// What the symbols of a line stand for, by the open job.
    pub fn scope(&self) -> Scope<'_>
        ensures { IsScope self.now result }
    {
        let symbols = match self.open_job() {
            Some(job) => job.symbols.as_slice(),
            None => &[],
        };
        Scope {
            symbols,
            here: Word::low_bits(u64::from(self.here)),
            last: self.last,
        }
    }

    /// Adds an address of a job: `LOOP+3`.
    pub fn say_address(&mut self, job: u8, address: u32)
        ensures says { Adds self.old.answer self.new.answer (address_by address (shown_in self.old job)) }
        ensures same { self.new ≡ record self.old { answer = self.new.answer } }
    {
        let text = match self.shown(job) {
            Some(job) => address_text(self.alloc, job, address),
            None => format!(in self.alloc; "{address:o}"),
        };
        self.answer.say_made(text);
    }

    /// Adds an address of the open job and the word there, without a line end.
    fn say_word(&mut self, address: u32, word: Word)
        ensures says { IfSome (line_in self.old address word) (λ line. Adds self.old.answer self.new.answer line) }
        ensures same { self.new ≡ record self.old { answer = self.new.answer } }
    {
        match self.shown(self.open) {
            Some(job) => {
                let line = address_line(self.alloc, job, address, word, self.mode);
                self.answer.say_made(line);
            }
            None => {}
        }
    }

    /// Adds the line on an address of the open job and the word there; false where it has no word there.
    pub fn show_address(&mut self, timeline: &Timeline, address: u32) -> bool
        ensures there { result ≡ is_some (open_word self.old (history timeline.now) address) }
        ensures last { IfSome (open_word self.old (history timeline.now) address) (λ w. self.new.last ≡ w) }
        ensures says { IfSome (open_word self.old (history timeline.now) address)
            (λ w. IfSome (line_in self.old address w) (λ line. Adds self.old.answer self.new.answer (line ++ (10 ∷ [])))) }
        ensures same { self.new ≡ record self.old { answer = self.new.answer; last = self.new.last } }
        ensures none { result ≡ false → self.new ≡ self.old }
    {
        let Some(word) = timeline.machine().peek(self.open, address) else {
            return false;
        };
        self.say_word(address, word);
        self.answer.end_line();
        self.last = word;
        true
    }

    /// Adds the line on what the open job executes next, or on how it stands where it is stopped or waits.
    pub fn show_next(&mut self, timeline: &Timeline)
        ensures here { self.new.here ≡ next_here self.old.here (job_view (machine_of (history timeline.now)).world self.old.open) }
        ensures same { self.new ≡ record self.old { here = self.new.here; last = self.new.last; answer = self.new.answer } }
    {
        let mut is_shown = false;
        if let Some(view) = timeline.machine().job(self.open) {
            self.here = view.pc.number();
            let is_running = view.stop.is_none() && view.wait == Wait::None;
            is_shown = is_running && self.show_address(timeline, self.here);
        }
        if !is_shown {
            self.show_job(timeline, self.open);
        }
    }

    /// Adds the line on how a job stands, with the address where it ended, or its PC.
    pub fn show_job(&mut self, timeline: &Timeline, number: u8)
        ensures says { IfSome (job_of self.old number) (λ job. AddsSome self.old.answer self.new.answer
            (IsJobLine (machine_of (history timeline.now)).world.requests job.shown.places job.shown.number (string_bytes job.file)
            (ended_in (history timeline.now) number) (job_view (machine_of (history timeline.now)).world job.shown.number))) }
        ensures same { self.new ≡ record self.old { answer = self.new.answer } }
    {
        let Ok(ended_at) = ended_at(timeline, number) else {
            return self.answer.fail();
        };
        if let Some(job) = self.job(number) {
            let file = job.file.as_str();
            let line = job_line(self.alloc, timeline.machine(), &job.shown, file, ended_at);
            self.answer.say_made(line);
        }
    }

    /// Adds the lines on how all jobs stand.
    pub fn show_jobs(&mut self, timeline: &Timeline) {
        for number in 1..self.lines().saturating_add(1) {
            self.show_job(timeline, number);
        }
    }
}
