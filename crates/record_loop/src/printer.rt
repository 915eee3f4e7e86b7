//! Outcomes to out: a line for each, or one line for all.
ghost use Rattle.std.specs.Prelude.{◌≡◌, ◌<◌, ◌+◌, ◌-◌, ◌^◌, [], false, true};
ghost use Rattle.exec_io.specs.Views.{SinkView};

use exec_io::Sink;
use exec_value::Outcome;
use line_summary::{Summary, put_summary};
use outcome_lines::put_line;

/// What is written of the outcomes.
#[derive(Clone, Copy, Debug, PartialEq, Eq)]
pub enum Form {
    /// A line for each.
    Lines,
    /// One line in place of all others.
    Summary,
}

impl Form {
    ghost use Rattle.record_loop.specs.declared.printer.Form.{Form};

    /// Whether there is a line for each outcome.
    fn has_lines(self) -> bool
        ensures yes { result ≡ true → self ≡ Form.Lines }
        ensures no { result ≡ false → self ≡ Form.Summary }
    {
        match self {
            Form::Lines => true,
            Form::Summary => false,
        }
    }
}

/// Prints outcomes, and counts them. After a lost write it goes on counting.
#[derive(Clone, Copy)]
pub struct Printer {
    form: Form,
    summary: Summary,
    /// Whether something was written and not handed on since.
    due: bool,
    /// Whether a call of the sink failed.
    lost: bool,
}

impl Printer {
    ghost use Rattle.record_loop.specs.Printing.{over, AppendsAtLeast, HasWrittenNone, Printed, PrintsNext, KeepsWritten, WritesRest, FinishesAll, OnlyAppends};

    /// A printer that has printed nothing.
    pub fn new(form: Form) -> Printer
        ensures no_lines { result.summary.lines ≡ 0 }
        ensures nothing { (start : SinkView) → Printed form start start result [] }
    {
        Printer {
            form,
            summary: Summary::new(),
            due: false,
            lost: false,
        }
    }

    /// How many outcomes were printed, or counted after a lost write.
    pub fn lines(&self) -> u32
        ensures { result ≡ self.now.summary.lines }
    {
        self.summary.lines()
    }

    /// Whether a write was lost.
    pub fn is_lost(&self) -> bool
        ensures { result ≡ self.now.lost }
    {
        self.lost
    }

    /// The numbers of the outcomes.
    pub fn summary(&self) -> Summary
        ensures { result ≡ self.now.summary }
    {
        self.summary
    }

    /// Prints the next outcome, unless a write was lost, and counts it.
    pub fn print<K: Sink>(&mut self, outcome: &Outcome, out: &mut K)
        requires few { self.old.summary.lines < 2 ^ 32 - 1 }
        ensures lines { self.new.summary.lines ≡ self.old.summary.lines + 1 }
        ensures stays_lost { self.old.lost ≡ true → self.new.lost ≡ true }
        ensures prints { PrintsNext outcome.now
            (over (K.told out.old) self.old) (over (K.told out.new) self.new) }
        ensures grows { AppendsAtLeast (K.told out.old).written (K.told out.new).written [] }
    {
        self.summary.count(outcome);
        if self.lost {
            return;
        }
        if !self.form.has_lines() {
            return;
        }
        self.due = true;
        if put_line(u64::from(self.summary.lines()), outcome, out).is_err() {
            self.lost = true;
        }
    }

    /// Hands on what was written and isn't handed on yet, unless a write was lost.
    pub fn hand_on<K: Sink>(&mut self, out: &mut K)
        ensures form { self.new.form ≡ self.old.form }
        ensures summary { self.new.summary ≡ self.old.summary }
        ensures wrote { KeepsWritten
            (over (K.told out.old) self.old) (over (K.told out.new) self.new) }
        ensures none { HasWrittenNone self.old → HasWrittenNone self.new }
        ensures settled { self.new.lost ≡ false → self.new.due ≡ false }
        ensures stays_lost { self.old.lost ≡ true → self.new.lost ≡ true }
        ensures grows { AppendsAtLeast (K.told out.old).written (K.told out.new).written [] }
    {
        if self.lost {
            return;
        }
        if !self.due {
            return;
        }
        self.due = false;
        if out.finish().is_err() {
            self.lost = true;
        }
    }

    /// Writes the one line in place of all others, where that is the form.
    fn put_rest<K: Sink>(&mut self, out: &mut K)
        ensures summary { self.new.summary ≡ self.old.summary }
        ensures wrote { WritesRest
            (over (K.told out.old) self.old) (over (K.told out.new) self.new) }
        ensures stays_lost { self.old.lost ≡ true → self.new.lost ≡ true }
        ensures grows { OnlyAppends (over (K.told out.old) self.old) (K.told out.new) }
    {
        if self.lost {
            return;
        }
        if self.form.has_lines() {
            return;
        }
        self.due = true;
        if put_summary(&self.summary, out).is_err() {
            self.lost = true;
        }
    }

    /// Writes what is left to write once all outcomes are printed, and hands it on.
    pub fn finish<K: Sink>(&mut self, out: &mut K)
        ensures finished { FinishesAll (over (K.told out.old) self.old)
            (K.told out.new) self.new.summary self.new.lost }
        ensures stays_lost { self.old.lost ≡ true → self.new.lost ≡ true }
        ensures grows { OnlyAppends (over (K.told out.old) self.old) (K.told out.new) }
    {
        self.put_rest(out);
        self.hand_on(out);
    }
}
