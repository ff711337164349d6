// What holds of the exported calls one after the other: on a store they are the core's, so that fragments in every order
// of arrival end complete for a host in C too; on a record the ids of the IPv4 frames built count on. Theorems alone, and
// no function.
#![tactic(auto)]
