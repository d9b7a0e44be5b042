//! What `--help` says, in the words of an operator.

/// What the program is for.
pub const PROGRAM: &str = "\
Replays a schedule of what happens between a platform and a service broker, given on standard
input, and reports what the platform records and what the broker holds in the end (Open Service
Broker API 2.17)";

/// How the program is called, below `Usage: `.
pub const PROGRAM_USAGE: &str = "\
osb-replay replay [--settle] [--saved] < SCHEDULE
       osb-replay trace [--instance ID] [--settle] < SCHEDULE
       osb-replay network [--settle | --trace [--instance ID]] < SCHEDULE
       osb-replay table";

/// How to start, and how the program ends.
pub const PROGRAM_START: &str = "\
To start, give a schedule on standard input:

  osb-replay replay < first.schedule

'osb-replay replay --help' says what stands in a schedule and in the report, and
'osb-replay trace --help' how to see what happened, line by line.

Exit status:
  0  done
  1  the schedule has a fault: standard error has its line and its name
  2  the command line was refused
  3  standard input could not be read
  4  standard output could not be written
  5  out of memory";

/// What `replay` does.
pub const REPLAY: &str =
    "Reads a schedule on standard input and writes the report on standard output";

/// How `replay` is called, below `Usage: `.
pub const REPLAY_USAGE: &str = "osb-replay replay [--settle] [--saved] < SCHEDULE";

/// What stands in a schedule and in the report.
pub const REPLAY_OUTPUT: &str = "\
A schedule names the broker's plans, and then what happens, a line each. Words in capitals stand
for GUIDs, STATUS for one of 500 to 599; '|' parts choices, and a line that begins with '#' is a
comment.

  plan SERVICE PLAN sync|async           the broker sells this plan; 'async': instances take time
  create INSTANCE SERVICE PLAN yes|no    an operator asks for an instance; 'yes': it may take time
  remove INSTANCE                        an operator has it deleted
  send INSTANCE                          the platform sends the request that is due next
  deliver INSTANCE done|before|after     the request reaches the broker, which does the work, or
                                         fails before or after it
  repeat INSTANCE done|before|after      it reaches the broker again, and the new answer is dropped
  lose INSTANCE                          the answer is lost
  garble INSTANCE                        the answer's body can't be read any more
  gateway INSTANCE STATUS                a gateway answers with this status in the broker's place
  answer INSTANCE                        the platform takes the answer
  timeout INSTANCE                       the platform gives the request up
  expire INSTANCE                        the platform has polled for as long as it may
  finish INSTANCE ok|fail                what takes the broker time ends, well or badly
  restart                                the platform crashes, and goes on from its saved record

The least that makes an instance is 'plan', 'create', 'deliver', 'answer'.

The report has a line 'ID STATE BROKER' for each instance that the platform has a record of: its
id, the state that is recorded, and what the broker holds of it ('none': nothing). Then the lines
'applied N' and 'skipped M' count the events that took effect, and those that could not where they
stand. If a line of the schedule has a fault, nothing is written.";

/// What `--settle` does.
pub const SETTLE: &str = "\
After the last event, gives each instance three rounds in which nothing is lost;
the report shows what is recorded and held after these";

/// What `--saved` does.
pub const SAVED: &str = "\
Adds a last line to the report: the platform's saved record, as JSON, from which
it starts again after a crash";

/// What `trace` does.
pub const TRACE: &str = "\
Reads a schedule on standard input and writes what each of its events did, as it is read";

/// How `trace` is called, below `Usage: `.
pub const TRACE_USAGE: &str = "osb-replay trace [--instance ID] [--settle] < SCHEDULE";

/// What stands in a trace.
pub const TRACE_OUTPUT: &str = "\
A trace has a line of names, and a line for each event, whose columns are parted by tabs:

  line      the number of the line in the schedule; 'round 1', 2 or 3: a round of '--settle'
  event     the event, as the schedule has it
  step      'applied', or why the event was skipped
  platform  what the platform records of the instance then, or 'none'
  broker    what the broker holds of it then, or 'none'
  out       the request that is out then, or '-'
  answer    the answer that travels then, its status and what can be read of it, or '-'

An event is skipped for one of these reasons:

  unknown          no instance of the id was ever asked for
  id-used          an instance of the id was asked for before
  busy             the state would allow it, but a request is out
  nothing-out      no request is out
  nothing-travels  no answer travels
  nothing-due      the state has no request due
  not-polling      the platform isn't polling until the instance is made
  not-removable    the state allows no removal
  nothing-running  the broker isn't at work on the instance

The line of a restart says how many instances it changed; its columns are those of '--instance', or
'-'. If a line of the schedule has a fault, the lines before it have been written.";

/// What `--instance` does.
pub const INSTANCE: &str = "\
Tells of this instance and of the restarts alone";

/// What `--settle` does in a trace.
pub const TRACE_SETTLE: &str = "\
After the last event, gives each instance three rounds in which nothing
is lost, and tells of these too";

/// What `network` does.
pub const NETWORK: &str = "\
Reads a schedule of instances with bindings on standard input and writes a report or a trace";

/// How `network` is called, below `Usage: `.
pub const NETWORK_USAGE: &str =
    "osb-replay network [--settle | --trace [--instance ID]] < SCHEDULE";

/// What stands in a network schedule, in its report and in its trace.
pub const NETWORK_OUTPUT: &str = "\
A network schedule says what happens to instances and bindings, a line each. The network loses,
delays and repeats what is sent. A LIFE is an instance ID, or a binding ID/BINDING: two GUIDs with a
slash between. N is a number in decimal, and STATUS is one of 500 to 599. '|' separates choices. A
line that begins with '#' is a comment.

  instance ID SERVICE PLAN sync|async|none yes|no first-poll|at-once both|platform|broker|none
                          takes an instance in: how the plan works; whether a Provision may take
                          time; the broker's rule for the first Poll; who keeps the rules
  binding ID/BINDING sync|async|none yes|no first-poll|at-once fetch|no-fetch
                          takes a binding in; 'fetch': the broker serves a Fetch of it
  create LIFE             the platform records the life and sends its first request
  send LIFE               the platform sends the request that is due next
  expire LIFE             the platform has polled for as long as it may
  retry LIFE              the platform sends a deletion again
  remove LIFE             an operator has it deleted
  timeout LIFE            the platform gives the request up
  arrive LIFE N           the request of attempt N reaches the broker, in time, late or again
  put-off LIFE N          it reaches a broker that lets nothing begin now
  take LIFE N             the platform takes the answer N, from 0, in time, late or again
  garble LIFE N           it takes the answer N, whose body can't be read any more
  gateway LIFE STATUS     a gateway answers with this status in the broker's place
  work LIFE absent|part|whole
                          the resource becomes this
  issue ID/BINDING N      the resource becomes whole, with credentials N
  end LIFE done|before|after|refused-400|refused-422|unknown
                          the pending work ends so
  finish LIFE ok|fail     what takes the broker time succeeds or fails
  give-up-waiting LIFE    the broker gives up a row that waits for its first Poll
  crash LIFE broker|platform
                          this side crashes and starts again
  fetch ID/BINDING        a Fetch of the binding reaches the broker
  take-fetched ID/BINDING N M
                          the platform takes the answer N with the fetched credentials M, from 0
  forget ID/BINDING       the broker deletes the binding's tombstone

The report has a line for each instance, and then for each of its bindings:

  LIFE STATE OUT ATTEMPT PHASE WORK TOMBSTONE RESOURCE [RECORDED CREDENTIALS]

STATE, OUT and ATTEMPT are what the platform records: the state, the request that is out, and the
number of the latest request. PHASE, WORK and TOMBSTONE are what the broker holds. RECORDED are the
credentials that the platform records with 'ready', and CREDENTIALS those of a resource that is
whole. '-' or 'none' stands for nothing. Then the lines 'applied N' and 'skipped M' count the events
that took effect, and those that could not where they stand. A trace has the same columns of the
event's life, then how many answers were given of it, and the answer that the event gave. If a line
of the schedule has a fault, nothing is written.";

/// What `--settle` does in a network schedule.
pub const NETWORK_SETTLE: &str = "\
After the last event, gives each instance and then each of its bindings three
rounds in which nothing is lost, if its platform keeps the rules";

/// What `--trace` does.
pub const NETWORK_TRACE: &str = "\
Writes a line for each event in place of the report: whether it applied, and
its life after it";

/// What `--instance` does in a network schedule.
pub const NETWORK_INSTANCE: &str = "\
Reports the events of this instance and of its bindings alone";

/// What `table` does.
pub const TABLE: &str = "Writes the orphan mitigation table on standard output";

/// What stands in the table.
pub const TABLE_OUTPUT: &str = "\
The table has a line 'ANSWER STATE MITIGATED' for each of twenty answers to a Provision, the request
that makes an instance: the answer's status, with its body where that matters; the state that the
platform records after it; and 'yes' where the platform has the broker delete what it may have
made, else 'no'. The line 'timeout' is for a Provision that gets no answer.";
