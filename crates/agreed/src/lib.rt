// Hub and phone agree, and what every answer is: laws of the functions that apps call. There is no code here.

#![tactic(auto)]
