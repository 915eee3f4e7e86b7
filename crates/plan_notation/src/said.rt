//! What a text says of a plan's settings.
ghost use Rattle.std.specs.Prelude.{◌≡◌, IfOk, OnOk};
ghost use Rattle.plan_notation.specs.Said.{settings_at_first, with_setting};

use crate::grammar::Setting;
use crate::joined::{Piece, two};
use std::alloc::{AllocError, Global};
use std::marker::Model;

/// The settings, each as JSON, and where the scope is told. Of one that is told twice the last
/// counts.
#[derive(Drop)]
pub(crate) struct Said {
    version: Piece,
    input: Piece,
    scope: Piece,
    on_error: Piece,
    /// The key and its number, or nothing.
    stop_after: Piece,
    scope_at: usize,
}

impl Model for Said {
    ghost use Rattle.plan_notation.specs.Settings.{Settings};

    ghost Value = { Settings };

    ghost view = { λ s. record {
      version = s.version.items;
      input = s.input.items;
      scope = s.scope.items;
      on_error = s.on_error.items;
      stop_after = s.stop_after.items;
      scope_at = s.scope_at;
    } };
}

impl Said {
    /// Where nothing is told.
    pub(crate) fn nothing(alloc: Global) -> Result<Said, AllocError>
        ensures { IfOk result (λ said. said ≡ settings_at_first) }
    {
        Ok(Said {
            version: Vec::from_slice(alloc, b"1")?,
            input: Vec::from_slice(alloc, b"\"int\"")?,
            scope: Vec::from_slice(alloc, b"\"counting\"")?,
            on_error: Vec::from_slice(alloc, b"\"go\"")?,
            stop_after: Vec::new(alloc),
            scope_at: 0,
        })
    }

    /// The version.
    pub(crate) fn version(&self) -> &[u8]
        ensures { result.now ≡ self.now.version }
    {
        &self.version
    }

    /// The kind of the records.
    pub(crate) fn input(&self) -> &[u8]
        ensures { result.now ≡ self.now.input }
    {
        &self.input
    }

    /// The kind of the scope.
    pub(crate) fn scope(&self) -> &[u8]
        ensures { result.now ≡ self.now.scope }
    {
        &self.scope
    }

    /// What is done on an error.
    pub(crate) fn on_error(&self) -> &[u8]
        ensures { result.now ≡ self.now.on_error }
    {
        &self.on_error
    }

    /// The rule of a stop after some records: its key and its number, or nothing.
    pub(crate) fn stop_after(&self) -> &[u8]
        ensures { result.now ≡ self.now.stop_after }
    {
        &self.stop_after
    }

    /// Where the scope is told.
    pub(crate) fn scope_at(&self) -> usize
        ensures { result ≡ self.now.scope_at }
    {
        self.scope_at
    }

    /// Takes one more setting, which is told at this offset.
    pub(crate) fn tell(
        &mut self,
        alloc: Global,
        setting: Setting,
        value: Piece,
        at: usize,
    ) -> Result<(), AllocError>
        ensures { OnOk result (self.new ≡ with_setting setting value.items at self.old) }
    {
        match setting {
            Setting::Version => self.version = value,
            Setting::Input => self.input = value,
            Setting::Scope => {
                self.scope = value;
                self.scope_at = at;
            }
            Setting::OnError => self.on_error = value,
            Setting::StopAfter => self.stop_after = two(alloc, b",\"stop_after\":", &value)?,
        }
        Ok(())
    }
}
