// The front of journeys and the journey of each front cost (document 01, "What is handed back").

#![tactic(auto)]

pub mod chain; // chain.rt: chains of rows of the arrivals table
pub mod counting; // counting.rt: which arrivals at the goal count
pub mod goal; // goal.rt: the goal's rows of the arrivals table, in the order of their costs
pub mod front; // front.rt: the front off the goal's rows
pub mod slow; // slow.rt: the front where the rows are too many for that
pub mod lookup; // lookup.rt: rows of the arrivals table, found by their order
pub mod waits; // waits.rt: the row from which a cart stands somewhere by waiting
pub mod marks; // marks.rt: the rows on the way to a journey's end, marked
pub mod walk; // walk.rt: the journey of a front cost
pub mod calls; // calls.rt: the front and a journey of a sheet
pub mod compare; // compare.rt: two fronts compared (demand 3)

// What a call of the front hands back: the count of front costs and the number of leading arrivals.
#[repr(C)]
#[derive(Clone, Copy)]
pub struct FrontAnswer {
    pub refusal: u32,
    pub line: u32,
    pub costs: u64,
    pub arrivals: u64,
}

// What a call of a journey hands back: its cost and its arrival step.
#[repr(C)]
#[derive(Drop)]
pub struct JourneyAnswer {
    pub refusal: u32,
    pub line: u32,
    pub cost: [u32; 3],
    pub arrival: u32,
}
