// The records of a parent once it has forked.
ghost use Rattle.std.specs.Prelude.{◌≡◌, ◌≤◌, ◌<◌, false, length, All, OnOk, OnErr};
ghost use Rattle.vproc_record.specs.Vprocs.{with_child};
ghost use Rattle.group_record.specs.Members.{has_member};
ghost use Rattle.group_record.specs.Groups.{settled, trimmed};
ghost use Rattle.sig_stream.specs.Streams.{stream};
ghost use Rattle.decide_law.specs.Effects.{folded, emptied};
ghost use Rattle.ops_fork.specs.Fork.{with_newborn, joins, born_record};

use group_record::Group;
use record_bag::Site;
use sig_stream::fold_tail;
use signal_state::Own;
use std::alloc::Global;
use unix_names::{Life, NoMemory, Pid, Seq};
use vproc_record::{Children, Refused, Vproc};

/// The record of the child that is made at a site. It takes no memory.
pub fn born_record(alloc: Global, v: &Vproc, site: Site) -> Vproc
    ensures { result ≡ born_record v.now site }
{
    Vproc {
        pid: site.fresh,
        parent: v.pid,
        group: v.group,
        session: v.session,
        uid: v.uid,
        life: Life::Runs,
        change: None,
        execed: false,
        ignchld: v.ignchld,
        loc: site.node,
        children: Children::new(alloc),
        backlog: Seq::new(alloc),
    }
}

// A member more, the last, while the parent is settled.
fn join_settled(g: &mut Group, parent: Pid, child: Pid, uid: u32) -> Result<(), NoMemory>
    requires fresh { has_member g.old.members child ≡ false }
    requires within { All (λ m. m.from ≤ length g.old.log) g.old.members }
    ensures ok { OnOk result (g.new ≡ trimmed (joins child uid (settled g.old parent))) }
    ensures err { OnErr result (g.new ≡ g.old) }
{
    g.join(child, uid)?;
    g.settle(parent);
    g.trim();
    Ok(())
}

// A child more, the last.
fn list_child(v: &mut Vproc, child: Pid) -> Result<(), NoMemory>
    requires { length v.old.children < 64 }
    ensures ok { OnOk result (v.new ≡ with_child v.old child) }
    ensures err { OnErr result (v.new ≡ v.old) }
{
    match v.add_child(child) {
        Ok(()) => Ok(()),
        Err(Refused::NoMemory) => Err(NoMemory),
        Err(Refused::Full) => unreachable!(),
    }
}

/// The parent takes in its stream and is settled, the child is the last in its list and the last member of its group, and the group is trimmed.
///
/// # Errors
/// NoMemory where there is no room for a child or a member more; nothing is changed then.
pub fn add_newborn(own: &mut Own, v: &mut Vproc, g: &mut Group, child: Pid) -> Result<(), NoMemory>
    requires taken { own.old.taken ≤ length (stream v.old g.old) }
    requires fresh { has_member g.old.members child ≡ false }
    requires within { All (λ m. m.from ≤ length g.old.log) g.old.members }
    requires room { length v.old.children < 64 }
    ensures own { OnOk result (own.new ≡ folded own.old v.old g.old) }
    ensures vproc { OnOk result (v.new ≡ with_newborn child (emptied v.old)) }
    ensures group { OnOk result (g.new ≡ trimmed (joins child v.old.uid (settled g.old v.old.pid))) }
    ensures own_err { OnErr result (own.new ≡ own.old) }
    ensures vproc_err { OnErr result (v.new ≡ v.old) }
    ensures group_err { OnErr result (g.new ≡ g.old) }
{
    let mut carried = *own;
    fold_tail(&mut carried, v, g);
    carried.taken = 0;
    let had = v.children.len();
    list_child(v, child)?;
    if join_settled(g, v.pid, child, v.uid).is_err() {
        v.children.truncate(had);
        return Err(NoMemory);
    }
    v.backlog.clear();
    *own = carried;
    Ok(())
}
