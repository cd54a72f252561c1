// Runs with no example on a file that is decoded once (02, [7] and [11]): what each says, with other wanted rows, or with other rules.
//
// In order: what a run says; a run; with other wanted rows; with other rules. Nothing is decoded or cleared here: who asks often does it once.
ghost use Rattle.std.specs.Prelude.{◌≡◌};
ghost use Rattle.procedure.specs.Tableau.{run};
ghost use Rattle.run.specs.Said.{said};
ghost use Rattle.problem.specs.Decoded.{table_of, problem_of, Decoded};
ghost use Rattle.decoder.specs.Want.{AllServe, with_wanted, with_rules};
ghost use Rattle.graph.specs.Graphs.{work, capacity_of};
ghost use Rattle.engine.specs.Asking.{said_of, Asked};

use conclusion::{Verdict, verdict_of};
use decoder::{impose, want};

// A record found no place; "cannot"; "can". All that whoever asks wants to know, and no Result: a run without a place is an answer among three here.
#[derive(Clone, Copy, PartialEq, Eq, Debug)]
pub enum Said {
    Short,
    Cannot,
    Can,
}

// What a run on a decoded problem says. The work areas are left as the run left them.
fn say(problem: &[u64], nodes: &mut [u8], edges: &mut [u8], alternatives: &mut [u8]) -> Said
    requires { Decoded problem.now }
    ensures { said_of result ≡ said (run (problem_of problem.now)
        (capacity_of (work nodes.old edges.old alternatives.old))) }
{
    match verdict_of(problem, nodes, edges, alternatives) {
        Err(_) => Said::Short,
        Ok(Verdict::Cannot(_)) => Said::Cannot,
        Ok(Verdict::Can(_)) => Said::Can,
    }
}

// What a run says that wants these rows together, and no others: the words stand for that problem from now on.
pub fn ask_wanted(
    problem: &mut [u64],
    wanted: &[u8],
    nodes: &mut [u8],
    edges: &mut [u8],
    alternatives: &mut [u8],
) -> Said
    requires { Decoded problem.old × AllServe (table_of problem.old) wanted.now }
    ensures { Asked with_wanted problem.old wanted.now
        (capacity_of (work nodes.old edges.old alternatives.old)) result problem.new }
{
    want(problem, wanted);
    say(problem, nodes, edges, alternatives)
}

// The same with these rows as the rules, and no others. The two differ in the one call of the decoder's.
pub fn ask_rules(
    problem: &mut [u64],
    rules: &[u8],
    nodes: &mut [u8],
    edges: &mut [u8],
    alternatives: &mut [u8],
) -> Said
    requires { Decoded problem.old × AllServe (table_of problem.old) rules.now }
    ensures { Asked with_rules problem.old rules.now
        (capacity_of (work nodes.old edges.old alternatives.old)) result problem.new }
{
    impose(problem, rules);
    say(problem, nodes, edges, alternatives)
}
