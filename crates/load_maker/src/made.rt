// The text of a made file.
ghost use Rattle.std.specs.Prelude.{◌≡◌, ◌≤◌, ◌++◌, ◌∷◌, [], codes, min, IfOk, OnOk};
ghost use Rattle.std.specs.Fmt.{decimal};
ghost use Rattle.std.specs.List.{flat_map};
ghost use Rattle.std.specs.String.{string_bytes};
ghost use Rattle.load_maker.specs.Made.{child_name, worker_name, leader_name, start_name, line_of, statement_of, statement_row, after_statement, worker_head, worker_tail, worker_rows, after_workers, all_workers, fork_row, fork_rows, after_children, wait_rows, child_count as children_of, leader_head, leader_rows, after_leaders, all_leaders, start_row, all_starts, leader_count as leaders_of, follower_count as followers_of, worker_count as workers_of, made};
ghost use Rattle.load_maker.specs.declared.limits.TheConstants.{LARGEST_LOAD};
ghost use Rattle.unix_calls.specs.declared.limits.TheConstants.{MOST_NODES, MOST_STARTS};

use crate::draws::Draws;
use std::alloc::{AllocError, Global};
use unix_names::NoMemory;

/// The most children of a leader, and the most scripts of workers.
const MOST: u32 = 8;

/// The file of a seed: a cluster of so many nodes, and so many processes, of which one in nine leads and forks the others.
/// The same arguments give the same file.
pub fn make(alloc: Global, seed: u32, nodes: u32, size: u32) -> Result<Vec<u8>, NoMemory>
    requires some_node { 1 ≤ nodes }
    requires nodes { nodes ≤ MOST_NODES }
    requires some { 1 ≤ size }
    requires size { size ≤ LARGEST_LOAD }
    ensures { IfOk result (λ bytes. bytes.items ≡ made seed nodes size) }
{
    let leaders = (size + 8) / 9;
    let followers = size - leaders;
    let workers = followers.min(MOST);
    let mut draws = Draws { state: seed };
    let mut text = String::new(alloc);
    put_numbered(&mut text, "cluster ", nodes, "\n")?;
    put_workers(&mut text, &mut draws, workers, nodes)?;
    put_leaders(&mut text, &mut draws, leaders, followers, nodes)?;
    put_starts(&mut text, leaders, nodes)?;
    Ok(text.into_bytes())
}

fn put(text: &mut String, piece: &str) -> Result<(), AllocError>
    ensures { OnOk result (string_bytes text.new ≡ string_bytes text.old ++ piece.now) }
{
    text.push_str(piece)
}

// A number between two texts.
fn put_numbered(
    text: &mut String,
    before: &str,
    number: u32,
    behind: &str,
) -> Result<(), AllocError>
    ensures { OnOk result (string_bytes text.new ≡ string_bytes text.old ++ (before.now ++ (decimal number ++ behind.now))) }
{
    text.push_str(before)?;
    write!(text, "{number}")?;
    text.push_str(behind)
}

fn put_workers(
    text: &mut String,
    draws: &mut Draws,
    workers: u32,
    nodes: u32,
) -> Result<(), AllocError>
    requires { 1 ≤ nodes }
    ensures text { OnOk result (string_bytes text.new ≡ string_bytes text.old ++ flat_map line_of (all_workers nodes workers draws.old.state)) }
    ensures state { OnOk result (draws.new.state ≡ after_workers workers draws.old.state) }
{
    for number in 0..workers {
        put_worker(text, draws, number, nodes)?;
    }
    Ok(())
}

fn put_worker(
    text: &mut String,
    draws: &mut Draws,
    number: u32,
    nodes: u32,
) -> Result<(), AllocError>
    requires { 1 ≤ nodes }
    ensures text { OnOk result (string_bytes text.new ≡ string_bytes text.old ++ flat_map line_of (worker_rows nodes number draws.old.state)) }
    ensures state { OnOk result (draws.new.state ≡ after_statement (after_statement draws.old.state)) }
{
    put_worker_head(text, number)?;
    put_statement(text, draws, nodes)?;
    put_statement(text, draws, nodes)?;
    put_worker_tail(text, number)
}

// A worker up to its drawn statements.
fn put_worker_head(text: &mut String, number: u32) -> Result<(), AllocError>
    ensures { OnOk result (string_bytes text.new ≡ string_bytes text.old ++ flat_map line_of (worker_head number)) }
{
    put_numbered(text, "script w", number, "\nmask USR1\ngetpid\n")
}

// A worker behind its drawn statements.
fn put_worker_tail(text: &mut String, number: u32) -> Result<(), AllocError>
    ensures { OnOk result (string_bytes text.new ≡ string_bytes text.old ++ flat_map line_of (worker_tail number)) }
{
    put_numbered(text, "pending\nmask\nexit ", number, "\nend\n")
}

// A drawn statement.
fn put_statement(text: &mut String, draws: &mut Draws, nodes: u32) -> Result<(), AllocError>
    requires { 1 ≤ nodes }
    ensures text { OnOk result (string_bytes text.new ≡ string_bytes text.old ++ line_of (statement_row nodes draws.old.state)) }
    ensures state { OnOk result (draws.new.state ≡ after_statement draws.old.state) }
{
    match draws.draw(6) {
        0 => text.push_str("getppid\n"),
        1 => text.push_str("getpgid 0\n"),
        2 => text.push_str("setpgid 0 0\n"),
        3 => {
            let node = draws.draw(nodes);
            put_numbered(text, "migrate ", node, "\n")
        }
        4 => text.push_str("kill 0 USR1\n"),
        _ => text.push_str("setsid\n"),
    }
}

fn put_leaders(
    text: &mut String,
    draws: &mut Draws,
    leaders: u32,
    followers: u32,
    nodes: u32,
) -> Result<(), AllocError>
    requires some_node { 1 ≤ nodes }
    requires few { leaders ≤ MOST_STARTS }
    ensures text { OnOk result (string_bytes text.new
        ≡ string_bytes text.old ++ flat_map line_of (all_leaders (min followers 8) nodes followers leaders draws.old.state)) }
    ensures state { OnOk result (draws.new.state ≡ after_leaders followers leaders draws.old.state) }
{
    let workers = followers.min(MOST);
    for number in 0..leaders {
        let children = followers.saturating_sub(MOST * number).min(MOST);
        put_leader(text, draws, number, children, workers, nodes)?;
    }
    Ok(())
}

fn put_leader(
    text: &mut String,
    draws: &mut Draws,
    number: u32,
    children: u32,
    workers: u32,
    nodes: u32,
) -> Result<(), AllocError>
    requires some_node { 1 ≤ nodes }
    requires some_worker { children ≤ workers }
    ensures text { OnOk result (string_bytes text.new ≡ string_bytes text.old ++ flat_map line_of (leader_rows workers nodes children number draws.old.state)) }
    ensures state { OnOk result (draws.new.state ≡ after_children children draws.old.state) }
{
    put_leader_head(text, number)?;
    put_forks(text, draws, children, workers, nodes)?;
    put_waits(text, children)?;
    put(text, "end\n")
}

// A leader up to its forks.
fn put_leader_head(text: &mut String, number: u32) -> Result<(), AllocError>
    ensures { OnOk result (string_bytes text.new ≡ string_bytes text.old ++ flat_map line_of (leader_head number)) }
{
    put_numbered(text, "script lead", number, "\naction USR1 catch\n")
}

fn put_forks(
    text: &mut String,
    draws: &mut Draws,
    children: u32,
    workers: u32,
    nodes: u32,
) -> Result<(), AllocError>
    requires some_node { 1 ≤ nodes }
    requires some_worker { children ≤ workers }
    ensures text { OnOk result (string_bytes text.new ≡ string_bytes text.old ++ flat_map line_of (fork_rows workers nodes children draws.old.state)) }
    ensures state { OnOk result (draws.new.state ≡ after_children children draws.old.state) }
{
    for number in 0..children {
        let worker = draws.draw(workers);
        let node = draws.draw(nodes);
        put_fork(text, number, worker, node)?;
    }
    Ok(())
}

#[tactic(auto, using(crate::proofs::Lines::wait_more))]
fn put_waits(text: &mut String, children: u32) -> Result<(), AllocError>
    ensures { OnOk result (string_bytes text.new ≡ string_bytes text.old ++ flat_map line_of (wait_rows children)) }
{
    for _ in 0..children {
        text.push_str("wait any\n")?;
    }
    Ok(())
}

#[tactic(auto, using(crate::proofs::Lines::start_more))]
fn put_starts(text: &mut String, leaders: u32, nodes: u32) -> Result<(), AllocError>
    requires { 1 ≤ nodes }
    ensures { OnOk result (string_bytes text.new ≡ string_bytes text.old ++ flat_map line_of (all_starts nodes leaders)) }
{
    for number in 0..leaders {
        let node = number % nodes;
        put_start(text, node, number)?;
    }
    Ok(())
}

fn put_fork(text: &mut String, number: u32, worker: u32, node: u32) -> Result<(), AllocError>
    ensures { OnOk result (string_bytes text.new
        ≡ string_bytes text.old ++ line_of (codes "fork" ∷ child_name number ∷ worker_name worker ∷ codes "at" ∷ decimal node ∷ [])) }
{
    put_numbered(text, "fork c", number, " w")?;
    put_numbered(text, "", worker, " at ")?;
    put_numbered(text, "", node, "\n")
}

fn put_start(text: &mut String, node: u32, number: u32) -> Result<(), AllocError>
    ensures { OnOk result (string_bytes text.new
        ≡ string_bytes text.old ++ line_of (codes "start" ∷ decimal node ∷ leader_name number ∷ start_name number ∷ [])) }
{
    put_numbered(text, "start ", node, " lead")?;
    put_numbered(text, "", number, " p")?;
    put_numbered(text, "", number, "\n")
}
