// Two deltas that name no id in common, joined in either order: see specs/EitherOrder.antt. There is nothing to call.
#![tactic(auto)]
