// What holds of the calls on stores together: fragments in every order of arrival, a complete datagram
// that stands, and stores that do not touch each other. Theorems alone, and no function but tests of what a
// caller may do with the values.
#![tactic(auto)]

#[cfg(test)]
mod tests;
