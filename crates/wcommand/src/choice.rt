//! What the words choose.
ghost use Rattle.std.specs.Prelude.{◌≡◌};

/// The two files that a subcommand works on, as paths.
#[derive(Clone, Copy, Debug, PartialEq, Eq)]
pub struct Paths<'a> {
    /// The value of `--table`: the file with the table's declaration.
    pub table: &'a str,
    /// The value of `--store`: the file that holds what the store knows.
    pub store: &'a str,
}

/// A subcommand, with the values of its options and positionals. The values are the words as they were given, of
/// which nothing is judged.
#[derive(Debug, Drop)]
pub enum Choice<'a> {
    /// `session`, and no words at all: a script is read from standard input.
    Session,
    /// `take ORIGIN NUMBER CSV`: the segment in the file `csv` is taken under the name of `origin` and `number`.
    Take {
        paths: Paths<'a>,
        origin: &'a str,
        number: &'a str,
        csv: &'a str,
    },
    /// `retire ORIGIN NUMBER`: the name is retired for good.
    Retire {
        paths: Paths<'a>,
        origin: &'a str,
        number: &'a str,
    },
    /// `floor ORIGIN NUMBER`: all names of the origin up to the number are retired for good.
    Floor {
        paths: Paths<'a>,
        origin: &'a str,
        number: &'a str,
    },
    /// `join OTHER`: what the store in the file `other` knows is added.
    Join {
        paths: Paths<'a>,
        other: &'a str,
    },
    /// `feed STREAM`: the messages of the delivery stream in the file `stream` are handled, all of them or none.
    Feed {
        paths: Paths<'a>,
        stream: &'a str,
    },
    /// `list`: the names that the store knows are listed.
    List {
        paths: Paths<'a>,
    },
    /// `ask QUERY..`: queries are answered over the store's rows, in this order.
    Ask {
        paths: Paths<'a>,
        queries: Vec<&'a str>,
    },
    /// `shell`: the queries on standard input are answered over the store's rows, each as soon as it is whole.
    Shell {
        paths: Paths<'a>,
    },
}

impl<'a> Choice<'a> {
    ghost use Rattle.wcommand.specs.Inputs.{input_of, is_act, paths_of};

    /// The table and the store that the subcommand works on. A session works on none.
    pub fn paths(&self) -> Option<Paths<'a>>
        ensures { result ≡ paths_of self.now }
    {
        match *self {
            Choice::Session => None,
            Choice::Take { paths, .. } => Some(paths),
            Choice::Retire { paths, .. } => Some(paths),
            Choice::Floor { paths, .. } => Some(paths),
            Choice::Join { paths, .. } => Some(paths),
            Choice::Feed { paths, .. } => Some(paths),
            Choice::List { paths } => Some(paths),
            Choice::Ask { paths, .. } => Some(paths),
            Choice::Shell { paths } => Some(paths),
        }
    }

    /// Whether the subcommand is done in one act on the bytes of its files. A session and a shell go on for as long as
    /// their input does.
    pub fn is_act(&self) -> bool
        ensures { result ≡ is_act self.now }
    {
        match self {
            Choice::Session => false,
            Choice::Shell { .. } => false,
            _ => true,
        }
    }

    /// The path of the file that the subcommand reads besides these: CSV of `take`, OTHER of `join`, STREAM
    /// of `feed`.
    pub fn input(&self) -> Option<&'a str>
        ensures { result ≡ input_of self.now }
    {
        match *self {
            Choice::Take { csv, .. } => Some(csv),
            Choice::Join { other, .. } => Some(other),
            Choice::Feed { stream, .. } => Some(stream),
            _ => None,
        }
    }
}
