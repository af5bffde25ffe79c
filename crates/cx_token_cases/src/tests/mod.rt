mod fed;
mod names;
mod shared;
mod tokens;
