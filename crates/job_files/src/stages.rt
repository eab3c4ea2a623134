// The stages of a job's line.
ghost use Rattle.std.specs.Prelude.{◌≡◌, ◌<◌, map, length, IfOk, IfSome};
ghost use Rattle.job_files.specs.MethodReading as spec;

use crate::faults::JobKind;
use job_plans::Stage;
use script_words::number;
use std::alloc::Global;
use unix_names::{NoMemory, NodeId, Seq};

// What a word is read as, or what is wrong with it.
type Read<T> = Result<T, JobKind>;

fn number_in(word: &[u8]) -> Read<u32>
    ensures { result ≡ spec.number_in word.now }
{
    match number(word) {
        Ok(n) => Ok(n),
        Err(_) => Err(JobKind::BadNumber),
    }
}

fn status(word: &[u8]) -> Read<u8>
    ensures { result ≡ spec.status word.now }
{
    let status = number_in(word)?;
    if status < 256 {
        Ok(status as u8)
    } else {
        Err(JobKind::BadNumber)
    }
}

fn node(nodes: u32, word: &[u8]) -> Read<u32>
    ensures { result ≡ spec.node nodes word.now }
{
    let node = number_in(word)?;
    if node < nodes {
        Ok(node)
    } else {
        Err(JobKind::NoSuchNode)
    }
}

// Where the first `@` of a word stands.
fn at_sign(word: &[u8]) -> Option<usize>
    ensures value { result ≡ spec.at_sign word.now }
    ensures within { IfSome result (λ at. at < length word.now) }
{
    word.iter().position(|b| *b == b'@')
}

// The stage of a word, which is a status, `@` and a node.
fn stage(nodes: u32, word: &[u8]) -> Read<Stage>
    ensures { result ≡ spec.stage nodes word.now }
{
    match at_sign(word) {
        None => Err(JobKind::UnknownWord),
        Some(at) => {
            let status = status(&word[..at])?;
            let node = node(nodes, &word[at + 1..])?;
            Ok(Stage {
                status,
                node: NodeId(node),
            })
        }
    }
}

/// The stages of some words, or the fault of the first word that is no stage.
pub fn stages(alloc: Global, nodes: u32, words: &[&[u8]]) -> Result<Read<Seq<Stage>>, NoMemory>
    ensures { IfOk result (λ read. read ≡ spec.stages nodes (map (λ w. w.now) words.now)) }
{
    let mut stages = Seq::new(alloc);
    for word in words {
        match stage(nodes, word) {
            Err(kind) => return Ok(Err(kind)),
            Ok(stage) => stages.push(stage)?,
        }
    }
    Ok(Ok(stages))
}
