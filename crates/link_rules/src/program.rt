//! The classes of a program by number and by name.

ghost use Rattle.std.specs.Prelude.{◌≡◌, ◌++◌, ◌<◌, length, map, slice_get, IfSome, not, ◌&&◌};
ghost use Rattle.std.specs.Option.{option_copied};
ghost use Rattle.class_format.specs.Flags.{is_interface};
ghost use Rattle.class_names.specs.Classes.{this_name};
ghost use Rattle.class_names.specs.Texts.{is_array};
ghost use Rattle.link_rules.specs.Classes.{names_interface};
ghost use Rattle.link_rules.specs.Numbers.{number_of, flags_at, flags_of};

use class_format::{ClassFile, INTERFACE, has_flag};
use class_names::{Names, is_array};
use std::marker::Model;

/// The boot classes and the files' classes. A class's number is its place among them, the boot
/// classes first. Contracts see the list of all.
#[derive(Drop)]
pub struct Program<'a> {
    boot: &'a [ClassFile],
    files: &'a [ClassFile],
    names: Names<'a>,
}

impl<'a> Model for Program<'a> {
    ghost use Rattle.std.specs.Prelude.{◌≡◌, ◌++◌, List, map};
    ghost use Rattle.std.specs.Coded.{coded_list};
    ghost use Rattle.class_format.specs.declared.class.ClassFile.{ClassFile};
    ghost use Rattle.class_format.specs.contracts.class.ClassFile.{the_row};
    ghost use Rattle.class_names.specs.Classes.{this_name};

    ghost Value = { List ClassFile };

    ghost coded = { coded_list the_row.coded };

    ghost view = { λ p. p.boot.now ++ p.files.now };

    ghost invariant = { λ p. p.names ≡ map this_name (p.boot.now ++ p.files.now) };
}

impl<'a> Program<'a> {
    /// The program of these classes, which have these names.
    pub fn new(boot: &'a [ClassFile], files: &'a [ClassFile], names: Names<'a>) -> Program<'a>
        requires { names ≡ map this_name (boot.now ++ files.now) }
        ensures { result ≡ boot.now ++ files.now }
    {
        Program { boot, files, names }
    }

    /// The boot classes, and the files' classes behind them.
    pub fn parts(&self) -> (&[ClassFile], &[ClassFile])
        ensures { result.0.now ++ result.1.now ≡ self.now }
    {
        (self.boot, self.files)
    }

    /// The class of a number; `None` exactly past the end.
    pub fn class(&self, number: usize) -> Option<&ClassFile>
        ensures { option_copied result ≡ slice_get self.now number }
    {
        if number < self.boot.len() {
            self.boot.get(number)
        } else {
            self.files.get(number - self.boot.len())
        }
    }

    /// The number of the class of a name.
    pub fn number(&self, name: &[u16]) -> Option<usize>
        ensures at { result ≡ number_of self.now name.now }
        ensures within { IfSome result (λ n. n < length self.now) }
    {
        self.names.number(name)
    }

    /// The flags of the class of a number, 0 past the end.
    pub fn flags_at(&self, number: usize) -> u16
        ensures { result ≡ flags_at self.now number }
    {
        match self.class(number) {
            Some(class) => class.flags,
            None => 0,
        }
    }

    /// The flags of the class of a name, 0 where there is none.
    pub fn flags_of(&self, name: &[u16]) -> u16
        ensures { result ≡ flags_of self.now name.now }
    {
        match self.number(name) {
            Some(number) => self.flags_at(number),
            None => 0,
        }
    }

    /// Whether a class item's text names an interface.
    pub fn names_interface(&self, text: &[u16]) -> bool
        ensures { result ≡ names_interface self.now text.now }
    {
        !is_array(text) && has_flag(self.flags_of(text), INTERFACE)
    }
}
