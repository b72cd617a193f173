//! Proves at the end that no sent note is lost.
ghost use Rattle.std.specs.Prelude.{◌≡◌, ◌<◌, ◌⊎◌, ◌↔◌, All, Any, IfOk, IfErr, IsTrue};
ghost use Rattle.lx_post.specs.Posted.{AllEnded, HaveAllWorkers, IsAllReceived, IsSendPassOf, IsTakePassOf};

use crate::passes::{SendPass, TakePass};
use crate::post::Post;
use crate::post_rule::{Joining, Whole};
use lx_piece::{KeepItems, Maker};
use std::sync::Wait;

/// The value that `finish` returns if a send pass is missing, or an end wasn't received.
#[derive(Drop)]
pub struct Unfinished<M: Maker = KeepItems> {
    pub post: Post<M>,
    pub pass: TakePass<M::Made>,
    pub passes: Vec<SendPass<M::Made>>,
}

// Joins the pass of a worker whose end was received.
fn join<M: Maker>(post: &Post<M>, pass: &mut TakePass<M::Made>, other: SendPass<M::Made>)
    requires pass { IsTakePassOf post.now pass.old × AllEnded pass.old }
    requires other { IsSendPassOf post.now other }
    ensures unchanged { pass.new ≡ pass.old }
    ensures received { IsAllReceived pass.old other }
{
    post.queue.absorb::<Joining>(&mut pass.pass, other.pass);
    post.queue.learn_as::<Whole>(&mut pass.pass);
}

fn has_pass<C>(passes: &[SendPass<C>], worker: u8) -> bool
    ensures { IsTrue result ↔ Any (λ pass. pass.worker ≡ worker) passes.now }
{
    passes.iter().any(|pass| pass.worker == worker)
}

fn have_all_workers<C>(passes: &[SendPass<C>], workers: u8) -> bool
    ensures { IsTrue result ↔ HaveAllWorkers workers passes.now }
{
    for worker in 0..workers {
        if !has_pass(passes, worker) {
            return false;
        }
    }
    true
}

/// Proves that every note of each worker was received, and consumes the post and its passes. Allocates nothing. Returns them all if a worker's send
/// pass is missing, or its end wasn't received.
pub fn finish<R: Wait, M: Maker>(
    _rt: &R,
    post: Post<M>,
    mut pass: TakePass<M::Made>,
    passes: Vec<SendPass<M::Made>>,
) -> Result<(), Unfinished<M>>
    requires pass { IsTakePassOf post pass }
    requires passes { All (λ other. IsSendPassOf post other) passes.items }
    ensures received { IfOk result (λ _. All (λ other. IsAllReceived pass other) passes.items) }
    ensures every_worker { IfOk result (λ _. HaveAllWorkers pass.workers passes.items) }
    ensures unchanged { IfErr result
        (λ u. (u.post ≡ post) × (u.pass ≡ pass) × (u.passes ≡ passes)) }
    ensures unfinished { IfErr result
        (λ u. (¬ (AllEnded pass)) ⊎ (¬ (HaveAllWorkers pass.workers passes.items))) }
{
    if !pass.all_ended() {
        return Err(Unfinished { post, pass, passes });
    }
    if !have_all_workers(passes.as_slice(), pass.workers) {
        return Err(Unfinished { post, pass, passes });
    }
    for other in passes {
        join(&post, &mut pass, other);
    }
    Ok(())
}
