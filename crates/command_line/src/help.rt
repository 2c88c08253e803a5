//! The texts of the help. They carry no promise.

pub(crate) const ABOUT: &str =
    "Judges the plans of classical planners: says of each whether it is valid, or which step fails first and what is missing.";

pub(crate) const AFTER_HELP: &str = "\
A report of judge has a line for each plan and one for each planner:
  domain lamp problem lamp-1
  planner-1 1 valid 1
  planner-1 2 fails at 2 (light): missing (dark)
  planner-1 plans 2 valid 1 best 1
`plan_judge judge --help` and `plan_judge replay --help` explain each line. Where a plan fails or a text is refused,
plan_judge explain says why.

One of the files may be -, which is standard input.

Exit status:
  0  a report was written, whatever the verdicts, or help was
  1  an input was refused
  2  the command line was refused
  3  memory ran out, or a thread could not be started
  4  the report could not be written
explain and validate end with 0 only if the texts are read and all plans are valid, and with 1 if something is wrong.

Example:
  plan_judge judge --domain domain.pddl --problem problem.pddl planner-1 planner-2

Documents, in the folder docs of the repository: TUTORIAL.md goes through a first run, SPECIFICATION.md is the
reference, PROOF.md says what is proved.";

pub(crate) const JUDGE_ABOUT: &str =
    "Judges the plans of planners for a domain and a problem in PDDL, and writes a report.";

pub(crate) const JUDGE_AFTER_HELP: &str = "\
Each file has the plans of one planner, one or more. Between two plans stands a line of three dashes:
  ---

The report, on standard output:
  domain X problem Y                         the folded names
  FILE K valid N                             plan K is valid and has N steps
  FILE K fails at S (act args): WHY          step S is the first that is not applicable
  FILE K goal missing (p a) (not (q))        every step is applicable, but the goal does not hold
  FILE K unreadable line L                   the text is no plan
  FILE plans N valid M best B                B is the least number of steps of a valid plan, or -

With --dialect ipc a domain may also have :functions, effects that increase (total-cost), = between terms in
preconditions and goals, and types with a second parent object; the problem gives values to functions in :init.
With --dialect adl it may have all that, and in conditions or, imply, exists, forall and not before any of them,
and in effects forall and when.
Where the domain declares total-cost, two lines have a cost at their end:
  FILE K valid N cost C                      C is the cost of plan K, as 12 or 0.5, or - if it is undefined
  FILE plans N valid M best B cost C         C is the least cost of a valid plan, or -

Exit status:
  0  the report was written, whatever the verdicts
  1  a file could not be read, is too large, or holds no domain or problem that this judge reads; or there are
     more than 64 planners or 65536 plans
  2  the command line was refused
  3  memory ran out, or a thread could not be started
  4  the report could not be written

Example:
  plan_judge judge --domain domain.pddl --problem problem.pddl plans.txt other-planner.txt

Documents, in the folder docs of the repository: TUTORIAL.md, SPECIFICATION.md.";

pub(crate) const EXPLAIN_ABOUT: &str =
    "Explains, for people, why a domain or a problem is refused, or why plans fail: where in which file, and what to do.";

pub(crate) const EXPLAIN_AFTER_HELP: &str = "\
The explanation, on standard output:
  FILE:LINE:COLUMN: what is wrong, the line, and what to do about it
of a text that is refused, of a plan that is no plan text, and of each plan that fails or misses its goal. For each
condition that does not hold it names the step that made it so. PLANS may be left out, to test the domain and the problem alone.
With --format json it has the same facts as records for programs, a JSON object a line. With --lint warnings follow,
which change no verdict and no exit status.

Exit status:
  0  the domain and the problem are read, and all plans are valid
  1  something is wrong, as explained
  2  the command line was refused
  3  memory ran out
  4  the explanation could not be written

Example:
  plan_judge explain --domain domain.pddl --problem problem.pddl plans.txt

Documents, in the folder docs of the repository: TUTORIAL.md, SPECIFICATION.md.";

pub(crate) const REPLAY_ABOUT: &str =
    "Replays steps at a desk where plans are taken in, given out to be judged, and emitted in order.";

pub(crate) const REPLAY_AFTER_HELP: &str = "\
The steps, one a line; empty lines and lines that begin with ; are skipped:
  desk P N           the first line: P planners, N slots
  submit P TEXT      a plan of planner P, which is read from the rest of the line
  close P            no plan of planner P is accepted any more
  take               give out the least job that waits
  back J             job J is handed back
  finish J K         job J is finished with the finding of job K
  emit P             the next finding of planner P

The answers, on standard output, one line a step:
  accepted J, closed, took J, none, returned, finished, refused WHY
  emitted J VERDICT  the verdict of job J, as in a report

With --dialect ipc a domain may also have :functions, effects that increase (total-cost), = between terms in
preconditions and goals, and types with a second parent object; the problem gives values to functions in :init.
With --dialect adl it may have all that, and in conditions or, imply, exists, forall and not before any of them,
and in effects forall and when.
Where the domain declares total-cost, the verdict of a valid plan has its cost at the end:
  emitted 0 valid 2 cost 3.25

Exit status: as for judge; 1 also where a line of the steps is faulty.

Example:
  plan_judge replay --domain domain.pddl --problem problem.pddl --steps steps.txt

Documents, in the folder docs of the repository: TUTORIAL.md, SPECIFICATION.md.";

pub(crate) const VALIDATE_ABOUT: &str =
    "Says in the phrases of VAL's command validate which plans are valid, for scripts that call it.";

pub(crate) const VALIDATE_AFTER_HELP: &str = "\
The texts are read in the dialect adl. For each plan, on standard output:
  Checking plan: FILE
and, if it is valid, with its cost, or the number of its steps where the domain declares no total-cost:
  Plan executed successfully - checking goal
  Plan valid
  Final value: 3
or else one of these phrases, and below it the step that fails and what is missing:
  Plan failed to execute
  Goal not satisfied
  Bad plan description!

The program validate, which is installed with plan_judge, is this command.

Exit status:
  0  all plans are valid
  1  a plan is not valid, or a file could not be read, is too large, or holds no domain or problem that this judge reads
  2  the command line was refused
  3  memory ran out
  4  the verdicts could not be written

Example:
  plan_judge validate domain.pddl problem.pddl sas_plan

Documents, in the folder docs of the repository: DIFFERENCES.md says what differs from VAL.";
