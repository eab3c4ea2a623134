// What a job file says.
use unix_names::{NodeId, Seq};

/// A stage of a pipeline: the status that it ends with, and the node that it runs on.
#[derive(Clone, Copy, Debug, PartialEq, Eq)]
pub struct Stage {
    pub status: u8,
    pub node: NodeId,
}

/// A job: the stages of its pipeline, in order.
#[derive(Debug, Drop)]
pub struct Job {
    pub stages: Seq<Stage>,
}

/// What the shell is told to do with a job, which goes by its number, from 0 in the order of the job lines.
#[derive(Clone, Copy, Debug, PartialEq, Eq)]
pub enum JobLine {
    /// Start it, and wait for all its stages.
    Run(usize),
    /// Start it in the background.
    Start(usize),
    /// Stop its stages.
    Stop(usize),
    /// End its stages, also those that are stopped.
    End(usize),
    /// Let its stages go on, and wait for all of them.
    Bring(usize),
}

/// How far a job is.
#[derive(Clone, Copy, Debug, PartialEq, Eq)]
pub enum Phase {
    /// Not started.
    Idle,
    /// Started, and not waited for.
    Background,
    /// Waited for.
    Done,
}

/// A job file: how many nodes there are, the jobs, and what is done with them, line by line.
#[derive(Debug, Drop)]
pub struct JobFile {
    pub nodes: u32,
    pub jobs: Seq<Job>,
    pub lines: Seq<JobLine>,
}
