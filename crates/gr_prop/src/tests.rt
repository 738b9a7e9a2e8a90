// Bases against worked rows, and small ones against plain unit propagation.
mod calls;
mod comparisons;
mod formulas;
mod large;
mod rows;
