// Sessions at a desk, over a table of a key and two numbers, on a disk in memory.
//
// Bodies of batches are written without their header: `+,1,5,0` puts a row.
mod asks;
mod citing;
mod crashes;
mod failing;
mod following;
mod kept;
mod lengths;
mod limits;
mod migrating;
mod mixed;
mod opening;
mod refusals;
mod sessions;
