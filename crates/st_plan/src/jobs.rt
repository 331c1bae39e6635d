//! What a command line asks for.

use st_base::Limits;
use st_pcap::Unit;
use std::marker::Model;

/// A query with the form of its answer.
#[derive(Drop)]
pub struct Job<'a> {
    /// The text of the query, as it stands among the operands. It may be empty.
    pub query: &'a str,
    /// The unit of the answer's times.
    pub unit: Unit,
    /// How much of the answer is wanted; a limit that no option sets is 2^64 - 1.
    pub limits: Limits,
}

impl<'a> Model for Job<'a> {
    ghost use Rattle.st_plan.specs.Jobs.{Job as JobView};

    ghost Value = { JobView };

    ghost view = { λ j. record { query = j.query.now; unit = j.unit; limits = j.limits } };
}

/// How the block files of new pairs are laid out.
#[derive(Clone, Copy, Debug, PartialEq, Eq)]
pub struct LanePlan {
    /// The size of a block in bytes, a power of two from 4,096 to 1,048,576.
    pub size: u32,
    /// How many blocks a file has at most, from 1 to 4,095.
    pub blocks: u32,
}

/// New pairs for a spool.
#[derive(Drop)]
pub struct LoadPlan<'a> {
    /// The folder of the spool, as it stands among the operands. It isn't empty.
    pub folder: &'a str,
    /// The layout of the block files.
    pub plan: LanePlan,
    /// How many pairs the spool keeps at most, from 1 to 65,535.
    pub limit: u32,
}

impl<'a> Model for LoadPlan<'a> {
    ghost use Rattle.st_plan.specs.Jobs.{LoadPlan as LoadView};

    ghost Value = { LoadView };

    ghost view = { λ l. record { folder = l.folder.now; plan = l.plan; limit = l.limit } };
}

/// A query over a spool.
#[derive(Drop)]
pub struct QueryPlan<'a> {
    /// The folder of the spool, as it stands among the operands. It isn't empty.
    pub folder: &'a str,
    /// The query and the form of its answer.
    pub job: Job<'a>,
}

impl<'a> Model for QueryPlan<'a> {
    ghost use Rattle.st_plan.specs.Jobs.{QueryPlan as QueryView};

    ghost Value = { QueryView };

    ghost view = { λ q. record { folder = q.folder.now; job = q.job } };
}

/// A trial of a spool with packets that are made up.
#[derive(Drop)]
pub struct DrillPlan<'a> {
    /// The folder of the spool, as it stands among the operands. It isn't empty.
    pub folder: &'a str,
    /// How many packets are made, from 1 to 1,000,000.
    pub packets: u32,
}

impl<'a> Model for DrillPlan<'a> {
    ghost use Rattle.st_plan.specs.Jobs.{DrillPlan as DrillView};

    ghost Value = { DrillView };

    ghost view = { λ d. record { folder = d.folder.now; packets = d.packets } };
}

/// A spool whose pairs are gone through.
#[derive(Drop)]
pub struct SpoolPlan<'a> {
    /// The folder of the spool, as it stands among the operands. It isn't empty.
    pub folder: &'a str,
}

impl<'a> Model for SpoolPlan<'a> {
    ghost use Rattle.st_plan.specs.Jobs.{SpoolPlan as SpoolView};

    ghost Value = { SpoolView };

    ghost view = { λ s. record { folder = s.folder.now } };
}

/// What a command line asks for.
#[derive(Drop)]
pub enum Plan<'a> {
    /// `once QUERY`: a query over the pcap at the input.
    Once(Job<'a>),
    /// `load FOLDER`: the packets of the pcap at the input as new pairs of a spool.
    Load(LoadPlan<'a>),
    /// `query FOLDER QUERY`: a query over a spool.
    Query(QueryPlan<'a>),
    /// `list FOLDER`: a line for each pair of a spool.
    List(SpoolPlan<'a>),
    /// `check FOLDER`: a line for each pair of a spool, which says whether the pair is whole.
    Check(SpoolPlan<'a>),
    /// `drill FOLDER N`: N packets that are made up as new pairs of a spool, then four queries.
    Drill(DrillPlan<'a>),
}
