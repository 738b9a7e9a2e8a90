// A strengthener against worked rows, and against plain greedy strengthening.
mod calls;
mod comparisons;
mod formulas;
mod meeting;
mod rows;
