// What is answered to messages, with ample memory.
mod failing;
mod reads;
mod refusals;
mod served;
mod writes;
