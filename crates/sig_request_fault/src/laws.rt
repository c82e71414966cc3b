//! The tables are those of the requests. There is no code here.
ghost use Rattle.sig_request.specs.AuditRequest.{audit_request};
ghost use Rattle.sig_request.specs.ConsistencyRequest.{consistency_request};
ghost use Rattle.sig_request.specs.Policy.{request_policy_of};
ghost use Rattle.sig_request.specs.Request.{log_request};
ghost use Rattle.sig_request.specs.Row.{accepted_of};
ghost use Rattle.sig_request.specs.VerifyRequest.{verify_request};
ghost use Rattle.sig_request_fault.specs.AuditTable.{audit_table};
ghost use Rattle.sig_request_fault.specs.PolicyTable.{policy_table};
ghost use Rattle.sig_request_fault.specs.RequestTable.{consistency_table, log_table, verify_table};
ghost use Rattle.sig_request_fault.specs.RowTable.{accepted_table};
ghost use Rattle.sig_table.specs.TableOf.{IsTableOf};

/// A tree keeps to the table of the requests of a command if and only if it means a request of the command; and to that
/// of policies, and of lists of accepted signatures, if and only if it means one.
pub fn tables()
    ensures log { IsTableOf log_request log_table }
    ensures verify { IsTableOf verify_request verify_table }
    ensures consistency { IsTableOf consistency_request consistency_table }
    ensures audit { IsTableOf audit_request audit_table }
    ensures policy { IsTableOf request_policy_of policy_table }
    ensures accepted { IsTableOf accepted_of accepted_table }
{}
