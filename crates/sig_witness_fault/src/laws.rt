//! The table is that of the requests. There is no code here.
ghost use Rattle.sig_table.specs.TableOf.{IsTableOf};
ghost use Rattle.sig_witness_command.specs.Request.{witness_request};
ghost use Rattle.sig_witness_fault.specs.WitnessTable.{witness_table};

/// A tree keeps to the table of the requests of `witness` if and only if it means a request of `witness`.
pub fn table()
    ensures { IsTableOf witness_request witness_table }
{}
