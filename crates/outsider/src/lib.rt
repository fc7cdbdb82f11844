// What a user can say and prove who lists the library alone: its records, definitions and laws, in specs/, and a function over a call.
// Code that holds one of its records lists the crate that declares the record, too; bytes and numbers need no more.
#![tactic(auto)]

ghost use Rattle.outsider.specs.Users.{Recognised};

// Whether lent bytes begin as every report does: false is said of none that a report was written to.
pub fn may_be_report(text: &[u8]) -> bool
    ensures { Recognised text.now result }
{
    ardenquill::headed(text)
}
