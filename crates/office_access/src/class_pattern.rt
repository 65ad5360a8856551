//! The classes that a line of the settings names.
ghost use Rattle.std.specs.Prelude.{◌≡◌};
ghost use Rattle.office_access.specs.Rights.{fits};

use office_records::Code;

/// One or more classes, by the code.
#[derive(Drop)]
pub enum ClassPattern {
    /// The class of that code: `FIN`.
    Exactly(Code),
    /// The classes whose codes begin so: `FIN*`.
    Beginning(Code),
    /// Each class: `*`.
    Every,
}

impl ClassPattern {
    /// Reports whether the class of that code is one of these.
    pub fn fits(&self, class: &Code) -> bool
        ensures { result ≡ fits class.now self.now }
    {
        match self {
            ClassPattern::Exactly(code) => *class == *code,
            ClassPattern::Beginning(code) => class
                .text()
                .as_bytes()
                .starts_with(code.text().as_bytes()),
            ClassPattern::Every => true,
        }
    }
}
