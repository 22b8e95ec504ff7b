//! What a script has declared, and the replies to its commands.
ghost use Rattle.std.specs.Prelude.{[], ◌≡◌, ◌<◌, List, IfOk, IfErr, OnOk, OnErr, is_some, false, true};
ghost use Rattle.wscript.specs.Commands.{Command as Spelled, Declare, Feed, IsAllowed};
ghost use Rattle.wscript.specs.Requests.{IsOrderAt, IsRefusedAs};
ghost use Rattle.wstore.specs.History.{Step, MayLackMemory, is_declared};
ghost use Rattle.wreplies.specs.Texts.{bytes_of};
ghost use Rattle.wlines.specs.Pending.{IsSoundWriter};
ghost use Rattle.wlines.specs.Sent.{sent};
ghost use Rattle.wstore.specs.Sessions.{Stands, RepliesWith, refusal_text};
ghost use Rattle.wstore.specs.Steps.{Answered, FedPart};

use crate::cluster::Cluster;
use crate::script_run::RunFault;
use std::alloc::{AllocError, Global};
use std::io::Write;
use wlines::Outbox;
use wreplies::{Text, refused_name, refused_table};
use wscript::{NodeNumber, Order, Refusal};
use wsegment::{Schema, SchemaFault};
use wvalues::Counted;

/// The nodes of a script, once its table is declared.
#[derive(Drop)]
pub(crate) struct Session {
    alloc: Global,
    cluster: Option<Cluster>,
}

impl Session {
    /// Nothing is declared.
    pub(crate) fn new(alloc: Global) -> Session
        ensures { Stands result [] }
    {
        Session {
            alloc,
            cluster: None,
        }
    }

    /// Whether the table was declared.
    pub(crate) fn is_declared(&self) -> bool
        ensures history { (h : List Step) → Stands self.now h → result ≡ is_declared h }
        ensures cluster { result ≡ is_some self.now.cluster }
    {
        self.cluster.is_some()
    }

    /// Declares the table, if its bytes do. Where it finds no memory, nothing is changed.
    pub(crate) fn declare(&mut self, bytes: &[u8]) -> Result<Text, AllocError>
        ensures replies { IfOk result (λ text. (h : List Step) → is_declared h ≡ false → Stands self.old h
            → RepliesWith self.new h (Declare bytes.now) (bytes_of text)) }
        ensures err { OnErr result (self.new ≡ self.old) }
    {
        match Schema::read(self.alloc, bytes) {
            Ok(schema) => {
                let cluster = Cluster::new(self.alloc, &schema)?;
                self.cluster = Some(cluster);
                Ok(Text::Fixed(b"ok\n"))
            }
            Err(SchemaFault::NoMemory) => Err(AllocError),
            Err(fault) => Ok(Text::Fixed(refused_table(fault))),
        }
    }
}

impl Session {
    /// What a node answers. Where it finds no memory, nothing is changed.
    fn order(&mut self, node: NodeNumber, order: &Order) -> Result<Text, AllocError>
        requires { is_some self.old.cluster ≡ true }
        ensures replies { IfOk result (λ text. (h : List Step) (c : Spelled) → IsOrderAt node order.now c → Stands self.old h
            → RepliesWith self.new h c (bytes_of text)) }
        ensures err { OnErr result ((h : List Step) → Stands self.old h → Stands self.new h) }
        ensures lacks { OnErr result ((h : List Step) (c : Spelled) → IsOrderAt node order.now c → Stands self.old h → MayLackMemory h c) }
    {
        let Some(cluster) = &mut self.cluster else {
            unreachable!()
        };
        let text = cluster.answer(node, order)?;
        Ok(text)
    }

    /// Feeds a node, and writes what its messages are told.
    pub(crate) fn feed<W: Write>(
        &mut self,
        outbox: &mut Outbox,
        output: &mut Counted<W>,
        node: NodeNumber,
        piece: &[u8],
    ) -> Result<(), RunFault>
        requires output { IsSoundWriter output.old }
        requires declared { is_some self.old.cluster ≡ true }
        ensures ok { OnOk result ((h : List Step) → Stands self.old h
            → Answered self.new h (Feed node piece.now) (sent W.contents outbox.old output.old) (sent W.contents outbox.new output.new)) }
        ensures answered { OnOk result (outbox.new.is_answered ≡ true) }
        ensures sound { OnOk result (IsSoundWriter output.new) }
        ensures part { OnErr result ((h : List Step) → Stands self.old h
            → FedPart h node piece.now (sent W.contents outbox.old output.old) (sent W.contents outbox.new output.new)) }
        ensures fault { IfErr result (λ e. e ≡ RunFault.Write) }
        ensures cause { OnErr result (output.new.failures ≡ 1) }
    {
        let Some(cluster) = &mut self.cluster else {
            unreachable!()
        };
        cluster.feed(outbox, output, node, piece)
    }

    /// The reply of a node, which may be that it finds no memory, where the command needs some.
    pub(crate) fn reply(&mut self, node: NodeNumber, order: &Order) -> Text
        requires { is_some self.old.cluster ≡ true }
        ensures { (h : List Step) (c : Spelled) → IsOrderAt node order.now c → Stands self.old h
            → RepliesWith self.new h c (bytes_of result) }
    {
        match self.order(node, order) {
            Ok(text) => text,
            Err(_) => Text::Fixed(b"no memory\n"),
        }
    }
}

// What is told of a command whose form alone refuses it.
fn refusal(reason: Refusal) -> &'static [u8]
    ensures { result.now ≡ refusal_text reason }
{
    match reason {
        Refusal::LongDeclaration => b"refused T1\n",
        Refusal::BadName(fault) => refused_name(fault),
        Refusal::LongSegment => b"refused S1\n",
        Refusal::LongQuery => b"refused Q1\n",
    }
}

/// The refusal of a command whose form alone refuses it.
pub(crate) fn refuse(reason: Refusal) -> &'static [u8]
    ensures { (session : Session) (h : List Step) (c : Spelled) → IsRefusedAs reason c → IsAllowed (is_declared h) c
        → Stands session h → RepliesWith session h c result.now }
{
    refusal(reason)
}
