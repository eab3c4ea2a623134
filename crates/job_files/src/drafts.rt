// What the lines so far say.
use crate::names::Names;
use job_plans::{Job, JobLine};
use unix_names::Seq;

/// What a line says.
#[derive(Debug, Drop)]
pub enum Item {
    Nothing,
    /// How many nodes the cluster has.
    Nodes(u32),
    Job(Job),
    Tells(JobLine),
}

/// What the lines so far say.
#[derive(Drop)]
pub struct Draft<'a> {
    /// Whether one of them says something.
    pub begun: bool,
    /// How many nodes the cluster has, or 0 where none of them says so.
    pub nodes: u32,
    /// The names of the jobs, by their numbers.
    pub names: Names<'a>,
    pub jobs: Seq<Job>,
    pub lines: Seq<JobLine>,
    /// How many stages the jobs have.
    pub stages: usize,
    /// How many statements the shell has.
    pub steps: usize,
}
