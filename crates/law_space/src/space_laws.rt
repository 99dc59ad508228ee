//! Each law is the contract of a function that does nothing. Their premises are what the types of a
//! galley and of a style keep, and that a table of pages is filled.
ghost use Rattle.std.specs.Prelude.{◌≡◌, List, ℤ};
ghost use Rattle.pg_plan.specs.declared.pages.PageMove.{PageMove};
ghost use Rattle.pg_plan.specs.declared.states.State.{State};
ghost use Rattle.pg_rules.specs.Follow.{Follow};
ghost use Rattle.pg_rules.specs.Legal.{document};
ghost use Rattle.pg_rules.specs.NoWorse.{is_same_key};
ghost use Rattle.pg_table.specs.Label.{IsTable};
ghost use Rattle.pg_table.specs.Narrower.{Instead, BetteredBy, IsNarrower};
ghost use Rattle.pg_table.specs.Space.{Lawful, Reached, IsRun};
ghost use Rattle.pg_table.specs.declared.table.Entry.{Entry};
ghost use Rattle.pg_rules.specs.Ranges.{AreInRange};
ghost use Rattle.law_space.specs.SpaceLaws.{BestPicksAreOne, BestPicksBetter, BestPicksStandIn, RanksFit, RunsAreBeginnings, BeginningsAreRuns, BetterGoOn, TellsAll};
ghost use Rattle.law_space.specs.PageSpace.{FollowBest, wide_meaning, page_meaning};

use pg_list::Galley;
use pg_style::Style;

/// Pages are a space that keeps all laws of a space, with every column that may follow and with
/// those of best picks alone.
pub fn pages_are_a_space(galley: &Galley, style: &Style)
    requires { AreInRange galley.now style.now }
    ensures wide { Lawful is_same_key (wide_meaning (document galley.now style.now)) }
    ensures best { Lawful is_same_key (page_meaning (document galley.now style.now)) }
{}

/// The rank of a state is below 2^64, and so is each number that is added up in it.
pub fn ranks_fit(galley: &Galley, style: &Style)
    requires { AreInRange galley.now style.now }
    ensures { RanksFit galley.now style.now }
{}

/// The runs of the space with every column are the beginnings of paginations, with their states
/// and costs.
pub fn runs_are_beginnings(galley: &Galley, style: &Style)
    requires { AreInRange galley.now style.now }
    ensures runs { RunsAreBeginnings galley.now style.now }
    ensures beginnings { BeginningsAreRuns galley.now style.now }
{}

/// Best picks exist for the end, the fitness, the counts and the run of each column that may
/// follow, and a column with best picks is cheaper, or as cheap and not after it; there is but one
/// list of them. So a run of columns with best picks betters each run.
pub fn best_picks_better(galley: &Galley, style: &Style)
    requires { AreInRange galley.now style.now }
    ensures exist { BestPicksStandIn galley.now style.now }
    ensures unique { BestPicksAreOne galley.now style.now }
    ensures narrower { IsNarrower (wide_meaning (document galley.now style.now))
        (FollowBest (document galley.now style.now)) }
    ensures better { BestPicksBetter galley.now style.now }
{}

/// Where one beginning is better than another, each column that may follow the other may follow
/// it too, and it stays better with that column.
pub fn better_beginnings_go_on(galley: &Galley, style: &Style)
    requires { AreInRange galley.now style.now }
    ensures { BetterGoOn galley.now style.now }
{}

/// A filled table of pages tells the best pagination with its cost, that none is legal where no
/// label is done, and the frontier, which its labels are, sorted by their states.
pub fn filled_table_tells_all(galley: &Galley, style: &Style)
    requires { AreInRange galley.now style.now }
    ensures { (es : List (Entry State PageMove)) → IsTable (page_meaning (document galley.now style.now)) es
        → TellsAll galley.now style.now es }
{}
