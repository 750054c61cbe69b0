// Laws of the work of runs.
ghost use Rattle.work_laws.specs.Worked.{Takes, one_output, a_text, a_list, a_copy, a_switch, a_call};

/// The work of six small programs, for frames without words, a bound of 8, any answers of ports and any memory card: a unit for each expression,
/// statement, variable with an initialiser and initialiser, for each cell that an initialiser sets or a copy of a structure reads or stores, for each label
/// of a switch, and for the call of `main`.
pub fn work_is_counted()
    ensures output { Takes one_output 4 }
    ensures text { Takes a_text 8 }
    ensures list { Takes a_list 12 }
    ensures copy { Takes a_copy 10 }
    ensures label { Takes a_switch 7 }
    ensures call { Takes a_call 8 }
{}
