mod endings;
mod faults;
mod folders;
mod orders;
mod restorers;
mod shelves;
mod texts;
mod untold;
