//! The texts below the usage, options and positionals that `clap` prints.

/// What `--version` prints behind the program's name.
pub(crate) const VERSION: &str = "0.1.0";

pub(crate) const ABOUT: &str =
    "Keeps one table as immutable CSV segments on several machines, and answers SELECT queries over its rows";

pub(crate) const AFTER: &str = "\
Without a command wstore runs a script from standard input, as 'wstore session' does. The other commands
work on two files: the declaration of the table, and the store. A store that is missing is empty, and the
commands that change one make it. Stores of one table can be copied to other machines and joined in any
order, any number of times.

A declaration names the table and its columns, each an integer or a text:
  table sales
  day integer
  shop text
  amount integer

Examples:
  wstore take --table sales.table --store sales.wsx east 1 monday.csv
  wstore list --table sales.table --store sales.wsx
  wstore ask --table sales.table --store sales.wsx 'SELECT count(*) FROM sales'
  wstore shell --table sales.table --store sales.wsx < report.sql
  wstore join --table sales.table --store sales.wsx west.wsx

Exit status:
  0  done; also a session with refused commands, help, and the version
  1  refused: standard output says why, as 'refused S8 row 1'
  2  words or a script that wstore does not understand
  3  a read fault, a write fault or no memory, named on standard error
A store is replaced whole, or is as it was: by 1 and 2 always.

'wstore help take' and the like tell more about a command.";

pub(crate) const SESSION: &str =
    "Run a script from standard input, as wstore does without a command";

pub(crate) const AFTER_SESSION: &str = "\
A script declares a table and speaks to up to sixteen nodes, which exchange what they know through sixteen
slots. Each reply is written to standard output. Nothing is kept when the script ends.

Examples:
  wstore session < morning.script
  wstore < morning.script > morning.replies

Exit status:
  0  the script ended, whatever was refused in it
  2  a malformed command, after whose reply 'bad script' nothing more is read
  3  a read fault, a write fault or no memory, named on standard error";

pub(crate) const TAKE: &str = "Take the rows of a CSV file into the store, under a name";

pub(crate) const AFTER_TAKE: &str = "\
ORIGIN and NUMBER together are the name of the rows, as 'east 1': who made them, and which of theirs they are.
A number is 1 to 999999999, without leading zeros. Other rows need another name. The first line of CSV names
the table's columns, in any order.

Prints:
  taken     the name is new, and its rows count
  same      the same bytes were taken before
  disputed  other bytes were taken under this name: no rows of it count any more
  ignored   the name is disputed or retired already
  refused   N1 an origin, N2 a number, S1 to S9 a CSV file that is malformed

Examples:
  wstore take --table sales.table --store sales.wsx east 1 monday.csv
  wstore take --table sales.table --store sales.wsx -- -shop-7 1 monday.csv

Exit status: 0 done, 1 refused, 2 words, 3 a fault. A store is replaced whole, or is as it was.";

pub(crate) const RETIRE: &str = "Retire a name for good, so that its rows count no more";

pub(crate) const AFTER_RETIRE: &str = "\
A name can be retired before its rows arrive, and no rows bring it back. To correct a file, retire its name and
take the corrected file under a new number.

Prints:
  retired   the name counted, was disputed or was not known
  same      it was retired already, or is not above a floor
  refused   N1 an origin, N2 a number that is malformed

Example:
  wstore retire --table sales.table --store sales.wsx east 1

Exit status: 0 done, 1 refused, 2 words, 3 a fault. A store is replaced whole, or is as it was.";

pub(crate) const FLOOR: &str = "Retire all names of an origin up to a number for good";

pub(crate) const AFTER_FLOOR: &str = "\
The store keeps one line for all of them, and forgets what it knew of each. A higher floor of the origin takes the
place of a lower one; a lower one changes nothing.

Prints:
  retired   the floor rose
  same      a floor of the origin stood as high
  refused   N1 an origin, N2 a number that is malformed

Example:
  wstore floor --table sales.table --store sales.wsx east 365

Exit status: 0 done, 1 refused, 2 words, 3 a fault. A store is replaced whole, or is as it was.";

pub(crate) const JOIN: &str = "Add to the store all that another store knows";

pub(crate) const AFTER_JOIN: &str = "\
OTHER is a store of the same table, as another machine keeps it. Two stores that joined each other list and answer
the same. Joining again changes nothing.

Prints:
  ok        the store knows what both knew
  refused   X1 to X8: OTHER is no store of this table, or is cut or changed

Example:
  wstore join --table sales.table --store sales.wsx west.wsx

Exit status: 0 done, 1 refused, 2 words, 3 a fault. A store is replaced whole, or is as it was.";

pub(crate) const FEED: &str = "Handle the messages of a delivery stream, all of them or none";

pub(crate) const AFTER_FEED: &str = "\
STREAM is a file or a pipe, as /dev/stdin, of messages one behind the other: segments, retirements, and floors.
  S ORIGIN NUMBER LENGTH    then a line feed, the LENGTH bytes of a CSV file, and a line feed
  R ORIGIN NUMBER           then a line feed
  U ORIGIN NUMBER           then a line feed
The store is judged once, and written once behind the last message.

Prints a line for each message, what 'take', 'retire' or 'floor' prints, and then 'fed' and their number; or the first
refusal alone, and then none of the messages counts:
  refused   S1 to S9 a CSV file that is malformed, B1 a message that is malformed or cut

Examples:
  wstore feed --table sales.table --store sales.wsx monday.stream
  cat *.stream | wstore feed --table sales.table --store sales.wsx /dev/stdin

Exit status: 0 done, 1 refused, 2 words, 3 a fault. A store is replaced whole, or is as it was.";

pub(crate) const LIST: &str = "List the names that the store knows";

pub(crate) const AFTER_LIST: &str = "\
Prints 'list' and the number of names, then a line for each name, by origin and number:
  east 1 live 4     its 4 rows count
  east 2 disputed   it was taken with different bytes, and counts nowhere
  west 1 retired    it was retired, and never counts again
  north 30 floor    all names of its origin up to it are retired

Example:
  wstore list --table sales.table --store sales.wsx

Exit status: 0 done, 1 a table or a store is refused, 2 words, 3 a fault.";

pub(crate) const ASK: &str = "Answer queries over the rows that count, as CSV";

pub(crate) const AFTER_ASK: &str = "\
QUERY is one SELECT over the table. Quote it, so that the shell hands it on as one word. One that may begin with
a comment is given behind '--'. The answer's first line names its columns. Two stores that know the same answer
the same bytes.

Several queries are answered over the store that is read once, one answer behind the other, with an empty line between
two. One that is refused has its refusal in the place of its answer, and the next goes on.

Examples:
  wstore ask --table sales.table --store sales.wsx 'SELECT count(*) FROM sales'
  wstore ask --table sales.table --store sales.wsx -- \"$(cat report.sql)\" > report.csv

Exit status: 0 answered, 1 refused (standard output has 'refused' and the rule that is broken; of several queries one
or more), 2 words, 3 a fault.";

pub(crate) const SHELL: &str = "Answer the queries on standard input, each as soon as it is whole";

pub(crate) const AFTER_SHELL: &str = "\
A query ends with ';' outside quotes and comments, and the last one where the input ends. The store is read once,
before the first query, and never written. Each answer is written before more is read, so a person, a pipe or a program
that waits for it can go on. Between two answers stands an empty line. A query that is refused has its refusal in the
place of its answer, and the next goes on. What has blanks and comments alone is passed over.

Examples:
  wstore shell --table sales.table --store sales.wsx
  wstore shell --table sales.table --store sales.wsx < report.sql > report.csv

Exit status: 0 answered, 1 refused (standard output has 'refused' and the rule that is broken, of one query or more,
or of the table or the store), 2 words, 3 a fault, behind the answers before it.";
