//! What the first fault of a tree is, in the subject's words. There is no code here.
ghost use Rattle.std.specs.Prelude.{◌≡◌, ◌↔◌, Some, None, IsTrue};
ghost use Rattle.sig_json.specs.Data.{Data};
ghost use Rattle.sig_table.specs.Fault.{fault_of};
ghost use Rattle.sig_table.specs.First.{IsFirstFault};
ghost use Rattle.sig_table.specs.Table.{Table, fits};
ghost use Rattle.sig_table.specs.declared.fault.MemberFault.{MemberFault};

/// No fault is found if and only if the tree keeps to the table. A fault is found if and only if it is the first: the
/// rows before it hold, its own row does not, and inside its member likewise. So no tree has two.
pub fn first_faults()
    ensures none { (t : Table) (d : Data) → (fault_of t d ≡ None) ↔ IsTrue (fits t d) }
    ensures first { (t : Table) (d : Data) (fault : MemberFault)
        → (fault_of t d ≡ Some fault) ↔ IsFirstFault t d fault.path fault.cause }
{}
