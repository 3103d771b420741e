//! The meaning of the path bench as definitions, and what is proved of them. Each function's contract is a theorem over every
//! model and every row limit; the functions themselves compute nothing.
#![tactic(auto)]

ghost use Rattle.meaning.specs.Theorems.{Always, Agreement, Judgement, OnePath, FollowingRight, Life, InRange, CursorsOnRows};
ghost use Rattle.meaning.specs.Worked.{Worked};
ghost use Rattle.meaning.specs.Further.{Further};

/// A case satisfies the list of a path exactly when its tables are lawful and its run follows the path; a refused path has no run.
pub fn conditions_agree_with_runs()
    ensures { Always Agreement }
{}

/// Judging answers 0 exactly when the case satisfies, and when following does; otherwise the first record that is not true.
pub fn judging_finds_the_first_failure()
    ensures { Always Judgement }
{}

/// No case satisfies the lists of two paths; the marks of a trace that ended or threw are a path that the case follows.
pub fn a_case_has_one_path()
    ensures { Always OnePath }
{}

/// Following is right about the run, and tells the marks agreed; following and tracing leave lawful tables.
pub fn following_is_right()
    ensures { Always FollowingRight }
{}

/// Over every list of events from a birth: lawful tables, events that change nothing, commits and rollbacks.
pub fn a_register_lives_lawfully()
    ensures { Always Life }
{}

/// From values in range, every value of a run and of a register's life is in range.
pub fn values_stay_in_range()
    ensures { Always InRange }
{}

/// A cursor that is on a row is on an existing one.
pub fn cursors_stand_on_rows()
    ensures { Always CursorsOnRows }
{}

/// The worked cases of the model g.
pub fn worked_cases_stand()
    ensures { Worked }
{}

/// Further cases: two tables, a reference, a cursor and a loop; and the ways in which a run is over.
pub fn further_cases_stand()
    ensures { Further }
{}
