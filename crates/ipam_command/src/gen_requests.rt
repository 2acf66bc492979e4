//! The requests that are made.
ghost use Rattle.std.specs.Prelude.{◌≡◌, IfOk, OnOk};
ghost use Rattle.std.specs.List.{All};
ghost use Rattle.ipam_records.specs.Sound.{IsHandleId};
ghost use Rattle.ipam_model.specs.SoundRequest.{IsSoundRequest};
ghost use Rattle.ipam_command.specs.Draws.{next_state};
ghost use Rattle.ipam_command.specs.Requests.{generated_add, generated_handle, live_below, request_of};

use crate::gen_draws::Draws;
use ipam_block::Attributes;
use ipam_model::{AddRequest, Request};
use ipam_text::{Seq, Text};
use std::alloc::{AllocError, Global};

/// The request of this number, which is drawn: each fourth is a DEL.
#[tactic(auto, unfolding(crate::specs::Requests::request_of))]
pub(crate) fn request_of(
    alloc: Global,
    number: u32,
    draws: &mut Draws,
) -> Result<Request, AllocError>
    ensures made { IfOk result (λ made. made ≡ request_of number draws.old.x) }
    ensures state { OnOk result (draws.new.x ≡ next_state draws.old.x) }
    ensures sound { IfOk result IsSoundRequest }
{
    if number % 4 == 3 {
        let handle = draws.draw(u64::from(number));
        return Ok(Request::Del(handle_of(alloc, handle)?));
    }
    let node = draws.draw(4);
    add_of(alloc, number, node)
}

/// The ADD of an IPv4 address for the handle of this number, on the node of that number.
#[tactic(auto, unfolding(crate::specs::Requests::generated_add))]
fn add_of(alloc: Global, handle: u32, node: u64) -> Result<Request, AllocError>
    ensures { IfOk result (λ made. made ≡ generated_add handle node) }
{
    let node = Text::of(format!(in alloc; "n{node}")?);
    let handle = handle_of(alloc, u64::from(handle))?;
    Ok(Request::Add(AddRequest {
        node,
        attributes: Attributes {
            handle,
            secondary: Seq::new(alloc),
        },
        ipv4: true,
        ipv6: false,
        labels: Seq::new(alloc),
        pools4: Seq::new(alloc),
        pools6: Seq::new(alloc),
    }))
}

/// The id of the handle of this number.
fn handle_of(alloc: Global, number: u64) -> Result<Text, AllocError>
    ensures { IfOk result (λ id. id ≡ generated_handle number) }
{
    Ok(Text::of(format!(in alloc; "g.c{number}")?))
}

/// The handles of the even numbers below this one.
#[tactic(auto, using(crate::proofs::NameLemmas::live_lemmas))]
pub(crate) fn live_below(alloc: Global, count: u32) -> Result<Seq<Text>, AllocError>
    ensures live { IfOk result (λ live. live ≡ live_below count) }
    ensures sound { IfOk result (All IsHandleId) }
{
    let mut live = Seq::new(alloc);
    for number in 0..count {
        if number % 2 == 0 {
            live.push(handle_of(alloc, u64::from(number))?)?;
        }
    }
    Ok(live)
}
