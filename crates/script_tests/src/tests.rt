mod linting;
mod rehearsing;
